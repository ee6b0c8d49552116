//! Drivers that follow a script, told by hand what a node would tell them.

use binding::{
    Act, Cause, Command, Condition, Loan, Notice, Outcome, Packet, Protocol, Question, ScriptDriver,
};
use driver_script::{Script, scripts_are_sound};
use nd_base::{BindingNo, Bytes, LoanNo, PacketNo, RequestNo, Status};
use std::alloc::Global;

/// What a driver may want, as a test says it.
#[derive(Drop)]
enum Want<'a> {
    Sends(&'a [u8]),
    Asks,
    Sets(&'a [u8]),
    AwaitsRoom,
    Awaits(Condition),
    Returns(u64),
    Ends,
}

/// The adapter and the driver that stand in front of each section here.
const HEAD: &[u8] = b"adapter 0 x port 0300 irq 5 mac 020000000001\ndriver 0 on 0\n";

/// The driver of a section of these lines.
fn driver_of(alloc: Global, section: &[u8]) -> Option<ScriptDriver> {
    let mut text = Vec::new(alloc);
    text.extend_from_slice(HEAD).ok()?;
    text.extend_from_slice(section).ok()?;
    scripts_are_sound();
    let script = Script::read(alloc, &text).ok()?;
    if script.drivers().is_empty() {
        return None;
    }
    ScriptDriver::of_script(alloc, &script, BindingNo(0)).ok()
}

/// Two drivers, each on the adapter of the other one's number.
const CROSSED: &[u8] = b"adapter 0 x port 0300 irq 5 mac 020000000001\n\
adapter 1 x port 0320 irq 6 mac 020000000002\n\
driver 0 on 1\n\
burst 1 16\n\
driver 1 on 0\n\
burst 1 16\n\
await up\n";

/// The driver of this number of a script.
fn driver_at(alloc: Global, text: &[u8], number: u8) -> Option<ScriptDriver> {
    scripts_are_sound();
    let script = Script::read(alloc, text).ok()?;
    if usize::from(number) >= script.drivers().len() {
        return None;
    }
    ScriptDriver::of_script(alloc, &script, BindingNo(number)).ok()
}

/// Ends a loan. Its number.
fn number_of(loan: Loan) -> u64 {
    let Loan { driver: _, number } = loan;
    number.0
}

/// Ends a command. Whether it is the one that is wanted.
fn is_wanted(command: Command, want: &Want<'_>) -> bool {
    match command {
        Command::Send(packet) => {
            let bytes = packet.spend();
            match want {
                Want::Sends(wanted) => bytes.as_slice() == *wanted,
                _ => false,
            }
        }
        Command::Return(loan) => {
            let number = number_of(loan);
            match want {
                Want::Returns(wanted) => number == *wanted,
                _ => false,
            }
        }
        Command::Ask(Question::Query { oid, length }) => {
            matches!(want, Want::Asks) && oid == 0x0001_0107 && length == 4
        }
        Command::Ask(Question::Set { oid, bytes }) => match want {
            Want::Sets(wanted) => oid == 0x0001_010e && bytes.as_slice() == *wanted,
            _ => false,
        },
        Command::Await(Condition::Room) => matches!(want, Want::AwaitsRoom),
        Command::Await(what) => match want {
            Want::Awaits(wanted) => what == *wanted,
            _ => false,
        },
        Command::Bind | Command::Unbind | Command::Done => false,
    }
}

/// Whether a driver wants this next.
fn wants(driver: &mut ScriptDriver, want: &Want<'_>) -> bool {
    match driver.next() {
        Ok(Act::Do(command)) => is_wanted(command, want),
        Ok(Act::Finish) => matches!(want, Want::Ends),
        Err(_) => false,
    }
}

/// Tells a driver an outcome.
fn is_told(driver: &mut ScriptDriver, outcome: Outcome) -> bool {
    match driver.told(outcome) {
        Ok(()) => true,
        Err(back) => {
            if let Some(loan) = back.into_loan() {
                let _ = number_of(loan);
            }
            false
        }
    }
}

/// Tells a driver that a frame came, on the loan of this number.
fn brings(alloc: Global, driver: &mut ScriptDriver, number: u64) -> bool {
    let loan = Loan {
        driver: BindingNo(0),
        number: LoanNo(number),
    };
    is_told(
        driver,
        Outcome::Notice(Notice::Frame(loan, Bytes::new(alloc))),
    )
}

/// Tells a driver that there is no room for a packet of these bytes.
fn finds_no_room(alloc: Global, driver: &mut ScriptDriver, bytes: &[u8]) -> bool {
    let Ok(copy) = Bytes::copy(alloc, bytes) else {
        return false;
    };
    match Packet::new(copy) {
        Ok(packet) => is_told(driver, Outcome::Held(packet)),
        Err(_) => false,
    }
}

/// Takes all loans from a driver, and ends it. How many there were.
fn end(driver: ScriptDriver) -> u64 {
    let mut last = driver;
    let mut count = 0u64;
    while let Some(loan) = last.give_up() {
        let _ = number_of(loan);
        count = count.wrapping_add(1);
    }
    last.close();
    count
}

/// 14 bytes.
const FIRST: &[u8] = &[1, 2, 3, 4, 5, 6, 7, 8, 9, 10, 11, 12, 13, 14];

/// 14 other bytes.
const SECOND: &[u8] = &[14, 13, 12, 11, 10, 9, 8, 7, 6, 5, 4, 3, 2, 1];

const SENDS: &[u8] = b"send 0102030405060708090a0b0c0d0e\nsend 0e0d0c0b0a090807060504030201\n";

/// A packet that is held is sent again when there is room, in front of a return; then comes the next.
fn sends_again(alloc: Global, driver: &mut ScriptDriver) -> bool {
    wants(driver, &Want::Sends(FIRST))
        && finds_no_room(alloc, driver, FIRST)
        && wants(driver, &Want::AwaitsRoom)
        && is_told(driver, Outcome::Waiting)
        && brings(alloc, driver, 7)
        && wants(driver, &Want::AwaitsRoom)
        && is_told(driver, Outcome::Met)
        && wants(driver, &Want::Returns(7))
        && is_told(driver, Outcome::Returned(LoanNo(7)))
        && wants(driver, &Want::Sends(FIRST))
        && is_told(driver, Outcome::Sent(PacketNo(0)))
        && wants(driver, &Want::Sends(SECOND))
        && is_told(driver, Outcome::Sent(PacketNo(1)))
        && wants(driver, &Want::Ends)
}

/// After Quiet a driver returns what it keeps, and comes to its end.
fn ends_after_quiet(alloc: Global, driver: &mut ScriptDriver) -> bool {
    wants(driver, &Want::Awaits(Condition::Frames(3)))
        && is_told(driver, Outcome::Waiting)
        && brings(alloc, driver, 4)
        && is_told(driver, Outcome::Quiet)
        && wants(driver, &Want::Returns(4))
        && is_told(driver, Outcome::AlreadyBack(LoanNo(4)))
        && wants(driver, &Want::Ends)
}

/// Loans are kept under `hold`, from the outcome of the line before it, and returned at `release`, the
/// oldest first, those that come in between too.
fn holds(alloc: Global, driver: &mut ScriptDriver) -> bool {
    wants(driver, &Want::Awaits(Condition::Up))
        && is_told(driver, Outcome::Met)
        && brings(alloc, driver, 1)
        && wants(driver, &Want::Awaits(Condition::Frames(2)))
        && is_told(driver, Outcome::News)
        && brings(alloc, driver, 2)
        && wants(driver, &Want::Awaits(Condition::Frames(2)))
        && is_told(driver, Outcome::Met)
        && wants(driver, &Want::Returns(1))
        && is_told(driver, Outcome::Returned(LoanNo(1)))
        && brings(alloc, driver, 3)
        && wants(driver, &Want::Returns(2))
        && is_told(driver, Outcome::Returned(LoanNo(2)))
        && wants(driver, &Want::Returns(3))
        && is_told(driver, Outcome::Returned(LoanNo(3)))
        && brings(alloc, driver, 4)
        && wants(driver, &Want::Awaits(Condition::All))
        && is_told(driver, Outcome::Met)
        && wants(driver, &Want::Returns(4))
        && is_told(driver, Outcome::Returned(LoanNo(4)))
        && wants(driver, &Want::Ends)
}

/// A driver that does not hold returns each loan before its next line.
fn returns(alloc: Global, driver: &mut ScriptDriver) -> bool {
    brings(alloc, driver, 5)
        && brings(alloc, driver, 6)
        && wants(driver, &Want::Returns(5))
        && is_told(driver, Outcome::Returned(LoanNo(5)))
        && wants(driver, &Want::Returns(6))
        && is_told(driver, Outcome::Returned(LoanNo(6)))
        && wants(driver, &Want::Asks)
        && is_told(driver, Outcome::Asked(RequestNo(0)))
        && wants(driver, &Want::Ends)
}

/// Packets 0 and 1 of a burst of 16 bytes.
const ZEROTH: &[u8] = &[
    255, 255, 255, 255, 255, 255, 2, 0, 0, 0, 0, 1, 0x88, 0xb5, 0, 1,
];

const NEXT: &[u8] = &[
    255, 255, 255, 255, 255, 255, 2, 0, 0, 0, 0, 1, 0x88, 0xb5, 1, 2,
];

fn bursts(driver: &mut ScriptDriver) -> bool {
    wants(driver, &Want::Sends(ZEROTH))
        && is_told(driver, Outcome::Sent(PacketNo(0)))
        && wants(driver, &Want::Sends(NEXT))
        && is_told(driver, Outcome::Sent(PacketNo(1)))
        && wants(driver, &Want::Awaits(Condition::Sent))
        && is_told(driver, Outcome::Met)
        && wants(driver, &Want::Ends)
}

/// Packet 0 of a burst of 16 bytes over the other station address.
const OTHER: &[u8] = &[
    255, 255, 255, 255, 255, 255, 2, 0, 0, 0, 0, 2, 0x88, 0xb5, 0, 1,
];

/// Whether the driver of this number sends this packet first, and wants this then.
fn crosses(alloc: Global, number: u8, sends: &[u8], then: &Want<'_>) -> bool {
    let Some(mut driver) = driver_at(alloc, CROSSED, number) else {
        return false;
    };
    let done = wants(&mut driver, &Want::Sends(sends))
        && is_told(&mut driver, Outcome::Sent(PacketNo(0)))
        && wants(&mut driver, then);
    end(driver) == 0 && done
}

/// Each driver has its own section, over the station address of its own adapter.
fn all_cross(alloc: Global) -> bool {
    crosses(alloc, 0, OTHER, &Want::Ends) && crosses(alloc, 1, ZEROTH, &Want::Awaits(Condition::Up))
}

/// Packet 255 of a burst of 16 bytes.
const LATE: &[u8] = &[
    255, 255, 255, 255, 255, 255, 2, 0, 0, 0, 0, 1, 0x88, 0xb5, 255, 0,
];

/// Whether a driver gives a command, whatever it is.
fn gives(driver: &mut ScriptDriver) -> bool {
    match driver.next() {
        Ok(Act::Do(command)) => {
            let _ = is_wanted(command, &Want::Ends);
            true
        }
        Ok(Act::Finish) => false,
        Err(_) => false,
    }
}

/// Sends so many packets.
fn sends_many(driver: &mut ScriptDriver, count: u16) -> bool {
    for number in 0..count {
        if !gives(driver) || !is_told(driver, Outcome::Sent(PacketNo(u64::from(number)))) {
            return false;
        }
    }
    true
}

fn bursts_on(driver: &mut ScriptDriver) -> bool {
    sends_many(driver, 255)
        && wants(driver, &Want::Sends(LATE))
        && is_told(driver, Outcome::Sent(PacketNo(255)))
        && wants(driver, &Want::Ends)
}

/// Tells a driver that a packet of these bytes is completed.
fn completes(alloc: Global, driver: &mut ScriptDriver, bytes: &[u8]) -> bool {
    let Ok(copy) = Bytes::copy(alloc, bytes) else {
        return false;
    };
    match Packet::new(copy) {
        Ok(packet) => is_told(
            driver,
            Outcome::Notice(Notice::Completed(PacketNo(0), Status(0), packet)),
        ),
        Err(_) => false,
    }
}

/// Notices but a frame on loan bring no loan.
fn takes_notices(alloc: Global, driver: &mut ScriptDriver) -> bool {
    let answered = Notice::Answered(RequestNo(0), Status(0), Bytes::new(alloc));
    is_told(driver, Outcome::Notice(answered))
        && completes(alloc, driver, FIRST)
        && is_told(driver, Outcome::Notice(Notice::Copied(Bytes::new(alloc))))
        && is_told(driver, Outcome::Notice(Notice::Stopped(Cause::Budget)))
        && wants(driver, &Want::Sets(&[13, 0, 0, 0]))
        && is_told(driver, Outcome::Asked(RequestNo(1)))
        && wants(driver, &Want::Ends)
}

/// Whether the driver of a section does what the test wants, and keeps so many loans then.
fn does(alloc: Global, section: &[u8], test: Test, kept: u64) -> bool {
    let Some(mut driver) = driver_of(alloc, section) else {
        return false;
    };
    let done = match test {
        Test::Again => sends_again(alloc, &mut driver),
        Test::Quiet => ends_after_quiet(alloc, &mut driver),
        Test::Holds => holds(alloc, &mut driver),
        Test::Returns => returns(alloc, &mut driver),
        Test::Bursts => bursts(&mut driver),
        Test::Late => bursts_on(&mut driver),
        Test::Notices => takes_notices(alloc, &mut driver),
        Test::Loans => brings(alloc, &mut driver, 1) && brings(alloc, &mut driver, 2),
    };
    end(driver) == kept && done
}

#[derive(Clone, Copy)]
enum Test {
    Again,
    Quiet,
    Holds,
    Returns,
    Bursts,
    Late,
    Notices,
    Loans,
}

#[test]
fn a_held_packet_is_sent_again(rt: HostRuntime) {
    assert!(rt; does(rt.alloc(), SENDS, Test::Again, 0));
}

#[test]
fn quiet_leads_to_the_end(rt: HostRuntime) {
    assert!(rt;
        does(
            rt.alloc(),
            b"hold\nawait frames 3\nawait all\nrelease\n",
            Test::Quiet,
            0
        )
    );
}

#[test]
fn loans_are_held_and_released(rt: HostRuntime) {
    assert!(rt;
        does(
            rt.alloc(),
            b"await up\nhold\nawait frames 2\nrelease\nhold\nawait all\n",
            Test::Holds,
            0
        )
    );
}

#[test]
fn loans_are_returned_before_the_next_line(rt: HostRuntime) {
    assert!(rt; does(rt.alloc(), b"query 00010107 4\n", Test::Returns, 0));
}

#[test]
fn a_burst_is_sent_packet_by_packet(rt: HostRuntime) {
    let alloc = rt.alloc();
    assert!(rt; does(alloc, b"burst 2 16\nawait sent\n", Test::Bursts, 0));
    assert!(rt; does(alloc, b"burst 256 16\n", Test::Late, 0));
}

#[test]
fn each_driver_has_its_section_and_adapter(rt: HostRuntime) {
    assert!(rt; all_cross(rt.alloc()));
}

#[test]
fn notices_are_taken(rt: HostRuntime) {
    assert!(rt; does(rt.alloc(), b"set 0001010e 0d000000\n", Test::Notices, 0));
}

#[test]
fn kept_loans_are_given_up(rt: HostRuntime) {
    assert!(rt; does(rt.alloc(), b"hold\nawait all\n", Test::Loans, 2));
}
