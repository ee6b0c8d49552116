use import_table::{Convention, ImportRow, import_named, import_row};

/// Whether the row is of this number, words, convention and levels.
fn is(row: &ImportRow, words: u8, convention: Convention, low: u8, high: u8) -> bool {
    row.words == words && row.convention == convention && row.low == low && row.high == high
}

/// Whether an import of this name is found, with this number.
fn is_found(name: &[u8], n: u8) -> bool {
    import_named(name).is_some_and(|row| row.import == n && row.name == name)
}

#[test]
fn rows_of_each_convention_and_level(rt: HostRuntime) {
    assert!(rt;
        is(import_row(1), 4, Convention::Stdcall, 0, 0)
            && is(import_row(4), 1, Convention::Fastcall, 0, 26)
            && is(import_row(17), 2, Convention::Stdcall, 0, 2)
            && is(import_row(38), 1, Convention::Stdcall, 2, 2)
            && is(import_row(47), 8, Convention::Stdcall, 0, 2)
            && is(import_row(64), 1, Convention::Cdecl, 0, 26)
    );
}

#[test]
fn names_are_found(rt: HostRuntime) {
    assert!(rt;
        is_found(b"NdisInitializeWrapper", 1)
            && is_found(b"KfLowerIrql", 5)
            && is_found(b"NdisMSleep", 20)
            && is_found(b"READ_PORT_BUFFER_USHORT", 58)
            && is_found(b"memset", 63)
            && is_found(b"DbgPrint", 64)
    );
}

#[test]
fn other_names_are_not(rt: HostRuntime) {
    assert!(rt;
        import_named(b"NdisMFooBar").is_none()
            && import_named(b"ndismsleep").is_none()
            && import_named(b"NdisMSlee").is_none()
            && import_named(b"memset\0").is_none()
            && import_named(b"").is_none()
    );
}

#[test]
fn each_row_is_found_by_its_name(rt: HostRuntime) {
    let all = (1..65_u8).all(|n| (1..65).contains(&n) && is_found(import_row(n).name, n));
    assert!(rt; all);
}
