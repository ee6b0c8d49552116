//! Tests of the crate `codes`.
#![tactic(auto)]

#[cfg(test)]
mod tests {
    use codes::{Stop, little_endian_2, little_endian_4, octet};

    /// Read bytes behind a prefix of a large input.
    static LARGE: [u8; 65536] = [0xA5; 65536];

    #[test]
    fn numbers_are_read_low_byte_first(rt: HostRuntime) {
        let bytes = [0x78, 0x56, 0x34, 0x12, 0xFF];
        assert!(rt; matches!(octet(&bytes), Ok((0x78, [0x56, 0x34, 0x12, 0xFF]))));
        assert!(rt; matches!(little_endian_2(&bytes), Ok((0x5678, [0x34, 0x12, 0xFF]))));
        assert!(rt; matches!(little_endian_4(&bytes), Ok((0x1234_5678, [0xFF]))));
    }

    #[test]
    fn fewer_bytes_need_more(rt: HostRuntime) {
        assert!(rt; matches!(octet(&[]), Err(Stop::More)));
        assert!(rt; matches!(little_endian_2(&[1]), Err(Stop::More)));
        assert!(rt; matches!(little_endian_4(&[1, 2, 3]), Err(Stop::More)));
    }

    #[test]
    fn large_inputs_are_read(rt: HostRuntime) {
        let bytes = &LARGE[..];
        assert!(rt; matches!(octet(bytes), Ok((0xA5, rest)) if rest.len() == 65535));
        assert!(rt; matches!(little_endian_2(bytes), Ok((0xA5A5, rest)) if rest.len() == 65534));
        assert!(rt;
            matches!(little_endian_4(bytes), Ok((0xA5A5_A5A5, rest)) if rest.len() == 65532)
        );
    }
}
