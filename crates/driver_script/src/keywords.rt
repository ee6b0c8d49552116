//! The words that lines begin with.

ghost use Rattle.std.specs.Prelude.{◌≡◌};
ghost use Rattle.log_fields.specs.Codes.{find};
ghost use Rattle.driver_script.specs.Keywords.{keyword_name, keywords_all, until_name, untils_all};

/// The first word of a line.
#[derive(Clone, Copy, PartialEq, Eq)]
pub(crate) enum Keyword {
    Adapter,
    Param,
    Driver,
    Send,
    Burst,
    Query,
    Set,
    Await,
    Hold,
    Release,
}

/// The second word of an `await` line.
#[derive(Clone, Copy, PartialEq, Eq)]
pub(crate) enum Until {
    Up,
    Sent,
    Replies,
    Frames,
    All,
}

/// All first words, in the order of `Keyword`.
pub(crate) static KEYWORDS: [Keyword; 10] = [
    Keyword::Adapter,
    Keyword::Param,
    Keyword::Driver,
    Keyword::Send,
    Keyword::Burst,
    Keyword::Query,
    Keyword::Set,
    Keyword::Await,
    Keyword::Hold,
    Keyword::Release,
];

/// All second words of `await` lines, in the order of `Until`.
pub(crate) static UNTILS: [Until; 5] = [
    Until::Up,
    Until::Sent,
    Until::Replies,
    Until::Frames,
    Until::All,
];

#[tactic(auto, unfolding(crate::specs::Keywords::keyword_name))]
fn keyword_name(keyword: Keyword) -> &'static str
    ensures { result.now ≡ keyword_name keyword }
{
    match keyword {
        Keyword::Adapter => "adapter",
        Keyword::Param => "param",
        Keyword::Driver => "driver",
        Keyword::Send => "send",
        Keyword::Burst => "burst",
        Keyword::Query => "query",
        Keyword::Set => "set",
        Keyword::Await => "await",
        Keyword::Hold => "hold",
        Keyword::Release => "release",
    }
}

#[tactic(auto, unfolding(crate::specs::Keywords::until_name))]
fn until_name(until: Until) -> &'static str
    ensures { result.now ≡ until_name until }
{
    match until {
        Until::Up => "up",
        Until::Sent => "sent",
        Until::Replies => "replies",
        Until::Frames => "frames",
        Until::All => "all",
    }
}

#[tactic(auto, unfolding(crate::specs::Keywords::keywords_all))]
fn keywords_all() -> &'static [Keyword]
    ensures { result.now ≡ keywords_all }
{
    &KEYWORDS
}

#[tactic(auto, unfolding(crate::specs::Keywords::untils_all))]
fn untils_all() -> &'static [Until]
    ensures { result.now ≡ untils_all }
{
    &UNTILS
}

/// The one of these with this name.
fn find_keyword_in(all: &[Keyword], name: &[u8]) -> Option<Keyword>
    ensures { result ≡ find keyword_name all.now name.now }
{
    for keyword in all {
        if keyword_name(*keyword).as_bytes() == name {
            return Some(*keyword);
        }
    }
    None
}

/// The one of these with this name.
fn find_until_in(all: &[Until], name: &[u8]) -> Option<Until>
    ensures { result ≡ find until_name all.now name.now }
{
    for until in all {
        if until_name(*until).as_bytes() == name {
            return Some(*until);
        }
    }
    None
}

/// The keyword with this name.
pub(crate) fn find_keyword(name: &[u8]) -> Option<Keyword>
    ensures { result ≡ find keyword_name keywords_all name.now }
{
    find_keyword_in(keywords_all(), name)
}

/// The second word of an `await` line with this name.
pub(crate) fn find_until(name: &[u8]) -> Option<Until>
    ensures { result ≡ find until_name untils_all name.now }
{
    find_until_in(untils_all(), name)
}
