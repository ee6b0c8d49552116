//! What one line of a script says.

ghost use Rattle.std.specs.Prelude.{◌≡◌, ◌∷◌, Option, Some, None};
ghost use Rattle.std.specs.Option.{option_map};
ghost use Rattle.nd_base.specs.Words.{words};
ghost use Rattle.driver_script.specs.declared.keywords.Keyword.TheVariants as keywords;
ghost use Rattle.driver_script.specs.Forms.{end_read};
ghost use Rattle.driver_script.specs.Items.{Does, until, item, item_form};
ghost use Rattle.driver_script.specs.Statements.{line_of, item_of};
ghost use Rattle.driver_script.specs.Reading.{said, said_by};

use crate::fields::{dash_or_digits, digits, end, mac, number, oid, past, port, word};
use crate::keywords::{Keyword, Until, find_keyword, find_until};
use log_fields::Condition;
use nd_base::words::next_word;

/// The largest number of four bytes.
const LARGEST: u64 = 0xffff_ffff;

/// What a driver does. Digits are those of the bytes.
#[derive(Clone, Copy)]
pub(crate) enum LineText<'a> {
    Send(&'a [u8]),
    Burst { count: u16, length: u16 },
    Query { oid: u32, length: u32 },
    Set { oid: u32, digits: &'a [u8] },
    Await(Condition),
    Hold,
    Release,
}

/// What a line states.
#[derive(Clone, Copy)]
pub(crate) enum Statement<'a> {
    Adapter {
        number: u8,
        id: &'a [u8],
        port: u16,
        irq: u8,
        mac: [u8; 6],
    },
    Param {
        adapter: u8,
        name: &'a [u8],
        text: &'a [u8],
    },
    Driver {
        number: u8,
        adapter: u8,
    },
    Does(LineText<'a>),
}

/// What a line says.
#[derive(Clone, Copy)]
pub(crate) enum Content<'a> {
    Nothing,
    Says(Statement<'a>),
    Outside,
}

/// The rest of a line `adapter A ID port HHHH irq N mac HHHHHHHHHHHH`.
fn adapter(line: &[u8]) -> Option<Statement<'_>>
    ensures { option_map item_of result ≡ (item_form keywords.Adapter).read (words line.now) }
{
    let (at, rest) = number(line, 0, 3)?;
    let (id, rest) = word(rest)?;
    let (first_port, rest) = port(past(rest, b"port")?)?;
    let (irq, rest) = number(past(rest, b"irq")?, 3, 15)?;
    let (address, rest) = mac(past(rest, b"mac")?)?;
    end(rest)?;
    Some(Statement::Adapter {
        number: at as u8,
        id,
        port: first_port,
        irq: irq as u8,
        mac: address,
    })
}

/// The rest of a line `param A NAME TEXT`.
fn param(line: &[u8]) -> Option<Statement<'_>>
    ensures { option_map item_of result ≡ (item_form keywords.Param).read (words line.now) }
{
    let (at, rest) = number(line, 0, 3)?;
    let (name, rest) = word(rest)?;
    let (text, rest) = word(rest)?;
    end(rest)?;
    Some(Statement::Param {
        adapter: at as u8,
        name,
        text,
    })
}

/// The rest of a line `driver B on A`.
fn driver(line: &[u8]) -> Option<Statement<'_>>
    ensures { option_map item_of result ≡ (item_form keywords.Driver).read (words line.now) }
{
    let (at, rest) = number(line, 0, 7)?;
    let (adapter, rest) = number(past(rest, b"on")?, 0, 3)?;
    end(rest)?;
    Some(Statement::Driver {
        number: at as u8,
        adapter: adapter as u8,
    })
}

/// The rest of a line `send HEX`.
fn send(line: &[u8]) -> Option<Statement<'_>>
    ensures { option_map item_of result ≡ (item_form keywords.Send).read (words line.now) }
{
    let (packet, rest) = digits(line, 14, 1514)?;
    end(rest)?;
    Some(Statement::Does(LineText::Send(packet)))
}

/// The rest of a line `burst N LEN`.
fn burst(line: &[u8]) -> Option<Statement<'_>>
    ensures { option_map item_of result ≡ (item_form keywords.Burst).read (words line.now) }
{
    let (count, rest) = number(line, 1, 10_000)?;
    let (length, rest) = number(rest, 14, 1514)?;
    end(rest)?;
    Some(Statement::Does(LineText::Burst {
        count: count as u16,
        length: length as u16,
    }))
}

/// The rest of a line `query OID LEN`.
fn query(line: &[u8]) -> Option<Statement<'_>>
    ensures { option_map item_of result ≡ (item_form keywords.Query).read (words line.now) }
{
    let (asked, rest) = oid(line)?;
    let (length, rest) = number(rest, 0, LARGEST)?;
    end(rest)?;
    Some(Statement::Does(LineText::Query { oid: asked, length }))
}

/// The rest of a line `set OID HEX`.
fn set(line: &[u8]) -> Option<Statement<'_>>
    ensures { option_map item_of result ≡ (item_form keywords.Set).read (words line.now) }
{
    let (asked, rest) = oid(line)?;
    let (value, rest) = dash_or_digits(rest)?;
    end(rest)?;
    Some(Statement::Does(LineText::Set {
        oid: asked,
        digits: value,
    }))
}

/// What the rest of a line `await ..` waits for.
fn condition(line: &[u8]) -> Option<Condition>
    ensures { result ≡ until.read (words line.now) }
{
    let (name, rest) = next_word(line)?;
    match find_until(name)? {
        Until::Up => {
            end(rest)?;
            Some(Condition::Up)
        }
        Until::Sent => {
            end(rest)?;
            Some(Condition::Sent)
        }
        Until::Replies => {
            end(rest)?;
            Some(Condition::Replies)
        }
        Until::Frames => {
            let (count, rest) = number(rest, 0, LARGEST)?;
            end(rest)?;
            Some(Condition::Frames(u64::from(count)))
        }
        Until::All => {
            end(rest)?;
            Some(Condition::All)
        }
    }
}

/// The rest of a line of one word.
fn alone<'a>(line: &'a [u8], text: LineText<'a>) -> Option<Statement<'a>>
    ensures { option_map item_of result ≡ option_map (λ x. Does (line_of text.entry)) (end_read (words line.now)) }
{
    end(line)?;
    Some(Statement::Does(text))
}

/// What the words behind a keyword state.
fn stated(keyword: Keyword, line: &[u8]) -> Option<Statement<'_>>
    ensures { option_map item_of result ≡ (item_form keyword).read (words line.now) }
{
    match keyword {
        Keyword::Adapter => adapter(line),
        Keyword::Param => param(line),
        Keyword::Driver => driver(line),
        Keyword::Send => send(line),
        Keyword::Burst => burst(line),
        Keyword::Query => query(line),
        Keyword::Set => set(line),
        Keyword::Await => Some(Statement::Does(LineText::Await(condition(line)?))),
        Keyword::Hold => alone(line, LineText::Hold),
        Keyword::Release => alone(line, LineText::Release),
    }
}

/// What a line states whose first word is this one.
#[tactic(auto, unfolding(crate::specs::Items::item))]
fn statement_of<'a>(first: &[u8], rest: &'a [u8]) -> Option<Statement<'a>>
    ensures { option_map item_of result ≡ item.read (first.now ∷ words rest.now) }
{
    stated(find_keyword(first)?, rest)
}

/// What a line says.
#[tactic(auto, unfolding(crate::specs::Reading::said))]
pub(crate) fn content_of(line: &[u8]) -> Content<'_>
    ensures { said_by result ≡ said line.now }
{
    if !line.is_empty() && line[0] == b'#' {
        return Content::Nothing;
    }
    let Some((first, rest)) = next_word(line) else {
        return Content::Nothing;
    };
    match statement_of(first, rest) {
        Some(statement) => Content::Says(statement),
        None => Content::Outside,
    }
}
