//! The kinds of entries, and their names.

ghost use Rattle.std.specs.Prelude.{◌≡◌};
ghost use Rattle.log_fields.specs.Codes.{find};
ghost use Rattle.call_log.specs.Kinds.{kind_name, kinds_all};

/// The kinds of entries.
#[derive(Clone, Copy, PartialEq, Eq)]
pub enum Kind {
    Bind,
    Unbind,
    Quiet,
    Done,
    Send,
    Hand,
    Requeue,
    Late,
    Complete,
    Indicate,
    Return,
    Back,
    Ask,
    HandAsk,
    Answer,
    Enter,
    Leave,
    Turn,
    Call,
    Reply,
    Spin,
    Port,
    WireIn,
    WireOut,
    Time,
    ResetBegin,
    ResetEnd,
    Fault,
    Stop,
    Await,
    Tag,
    Cancel,
    Event,
}

/// All kinds, in the order of `Kind`.
pub static KINDS: [Kind; 33] = [
    Kind::Bind,
    Kind::Unbind,
    Kind::Quiet,
    Kind::Done,
    Kind::Send,
    Kind::Hand,
    Kind::Requeue,
    Kind::Late,
    Kind::Complete,
    Kind::Indicate,
    Kind::Return,
    Kind::Back,
    Kind::Ask,
    Kind::HandAsk,
    Kind::Answer,
    Kind::Enter,
    Kind::Leave,
    Kind::Turn,
    Kind::Call,
    Kind::Reply,
    Kind::Spin,
    Kind::Port,
    Kind::WireIn,
    Kind::WireOut,
    Kind::Time,
    Kind::ResetBegin,
    Kind::ResetEnd,
    Kind::Fault,
    Kind::Stop,
    Kind::Await,
    Kind::Tag,
    Kind::Cancel,
    Kind::Event,
];

/// A kind's name.
#[tactic(auto, unfolding(crate::specs::Kinds::kind_name))]
pub fn kind_name(kind: Kind) -> &'static str
    ensures { result.now ≡ kind_name kind }
{
    match kind {
        Kind::Bind => "bind",
        Kind::Unbind => "unbind",
        Kind::Quiet => "quiet",
        Kind::Done => "done",
        Kind::Send => "send",
        Kind::Hand => "hand",
        Kind::Requeue => "requeue",
        Kind::Late => "late",
        Kind::Complete => "complete",
        Kind::Indicate => "indicate",
        Kind::Return => "return",
        Kind::Back => "back",
        Kind::Ask => "ask",
        Kind::HandAsk => "handask",
        Kind::Answer => "answer",
        Kind::Enter => "enter",
        Kind::Leave => "leave",
        Kind::Turn => "turn",
        Kind::Call => "call",
        Kind::Reply => "reply",
        Kind::Spin => "spin",
        Kind::Port => "port",
        Kind::WireIn => "wirein",
        Kind::WireOut => "wireout",
        Kind::Time => "time",
        Kind::ResetBegin => "resetbegin",
        Kind::ResetEnd => "resetend",
        Kind::Fault => "fault",
        Kind::Stop => "stop",
        Kind::Await => "await",
        Kind::Tag => "tag",
        Kind::Cancel => "cancel",
        Kind::Event => "event",
    }
}

/// All kinds.
#[tactic(auto, unfolding(crate::specs::Kinds::kinds_all))]
fn kinds_all() -> &'static [Kind]
    ensures { result.now ≡ kinds_all }
{
    &KINDS
}

/// The one of these with this name.
fn find_kind_in(all: &[Kind], name: &[u8]) -> Option<Kind>
    ensures { result ≡ find kind_name all.now name.now }
{
    for item in all {
        if kind_name(*item).as_bytes() == name {
            return Some(*item);
        }
    }
    None
}

/// The one with this name.
pub fn find_kind(name: &[u8]) -> Option<Kind>
    ensures { result ≡ find kind_name kinds_all name.now }
{
    find_kind_in(kinds_all(), name)
}
