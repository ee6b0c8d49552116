//! What stands in the files of each kind. That the sources are the files of examples/ is compared by
//! tests/outside/miniports.py.

use forged_miniports::{Kind, forge, kind_named, source_of};
use pe_image::{Image, Import};
use std::alloc::Global;

/// The imports that each kind begins with.
const WRAPPER: &[u8] = b"NdisInitializeWrapper";

const REGISTER: &[u8] = b"NdisMRegisterMiniport";

const ATTRIBUTES: &[u8] = b"NdisMSetAttributesEx";

const COMPLETE: &[u8] = b"NdisMSendComplete";

/// What kind scarce imports.
const SCARCE: [&[u8]; 9] = [
    WRAPPER,
    REGISTER,
    b"NdisAllocateMemoryWithTag",
    ATTRIBUTES,
    b"NdisMInitializeTimer",
    b"NdisSetTimer",
    b"NdisMSendResourcesAvailable",
    b"NdisMCancelTimer",
    b"NdisFreeMemory",
];

/// Whether the imports are of these names, in this order, and of NDIS.SYS.
fn are_of(imports: &[Import], names: &[&[u8]]) -> bool {
    for (import, name) in imports.iter().zip(names) {
        if import.name.as_slice() != *name || import.dll.as_slice() != b"NDIS.SYS".as_slice() {
            return false;
        }
    }
    imports.len() == names.len()
}

/// Whether the kind of a name has a source that begins with it, and an image with these imports.
fn forges(alloc: Global, word: &str, head: &[u8], names: &[&[u8]]) -> bool {
    let Some(kind) = kind_named(word) else {
        return false;
    };
    let Ok(miniport) = forge(alloc, kind) else {
        return false;
    };
    match Image::read(alloc, miniport.image.as_slice()) {
        Ok(image) => source_of(kind).starts_with(head) && are_of(image.imports(), names),
        Err(_) => false,
    }
}

#[test]
fn each_kind_has_its_image(rt: HostRuntime) {
    let alloc = rt.alloc();
    let plain = [WRAPPER, REGISTER, ATTRIBUTES];
    let completing = [WRAPPER, REGISTER, ATTRIBUTES, COMPLETE];
    assert!(rt; forges(alloc, "idle", b"# Kind idle: ", &plain));
    assert!(rt; forges(alloc, "mute", b"# Kind mute: ", &plain));
    assert!(rt; forges(alloc, "double", b"# Kind double: ", &completing));
    assert!(rt; forges(alloc, "deserial", b"# Kind deserial: ", &completing));
    assert!(rt; forges(alloc, "scarce", b"# Kind scarce: ", &SCARCE));
}

/// Whether two kinds have the same INF, and other images.
fn differ(alloc: Global, kind: Kind, other: Kind) -> bool {
    match (forge(alloc, kind), forge(alloc, other)) {
        (Ok(one), Ok(two)) => {
            one.inf.as_slice() == two.inf.as_slice() && one.image.as_slice() != two.image.as_slice()
        }
        _ => false,
    }
}

#[test]
fn kinds_share_the_inf(rt: HostRuntime) {
    assert!(rt; differ(rt.alloc(), Kind::Idle, Kind::Mute));
    assert!(rt; differ(rt.alloc(), Kind::Double, Kind::Deserial));
}

#[test]
fn other_words_name_no_kind(rt: HostRuntime) {
    for word in ["", "Idle", "idle ", "serial", "late"] {
        assert!(rt; kind_named(word).is_none());
    }
}
