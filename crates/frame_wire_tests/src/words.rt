//! The text of each refusal.

use frame_wire::WireRefusal;
use std::alloc::Global;

fn reads(alloc: Global, refusal: WireRefusal, text: &str) -> bool {
    match format!(in alloc; "{refusal}") {
        Ok(shown) => shown.as_str() == text,
        Err(_) => false,
    }
}

#[test]
fn refusals_have_texts(rt: HostRuntime) {
    for (refusal, text) in [
        (WireRefusal::OutOfMemory, "out of memory"),
        (WireRefusal::TooLong, "the file of frames is too long"),
        (WireRefusal::BadHeader, "no pcap header"),
        (
            WireRefusal::LinkType(101),
            "the link type is 101, not Ethernet",
        ),
        (WireRefusal::CutShort(24), "the entry at 24 is cut short"),
        (
            WireRefusal::Length(24),
            "the entry at 24 has a wrong length",
        ),
        (
            WireRefusal::Backwards(84),
            "the entry at 84 is before the last one in time",
        ),
    ] {
        assert!(rt; reads(rt.alloc(), refusal, text));
    }
}
