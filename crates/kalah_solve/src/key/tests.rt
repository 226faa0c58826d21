//! Keys, beside their layout.
use super::*;
use kalah_rules::Rule;
use std::process::Abort;

/// Asserts that some houses have these keys, and these keys those houses.
pub(crate) fn assert_keys(rt: &impl Abort) {
    let ones = [1, 1, 0, 0, 0, 0];
    for (m, row, rule, key) in [
        (2, ones, Rule::Classic, 0x2000_0008_4000_0021),
        (2, ones, Rule::EmptyCapture, 0xa000_0008_4000_0021),
        (1, [8, 0, 0, 0, 0, 0], Rule::Classic, 0x1000_0002_0000_0008),
    ] {
        let houses = Houses::new(m, row, row, rule).expect(rt, "beyond the limits");
        assert!(rt;
            pack(&houses) == key && unpack(key) == Some(houses),
            "{houses:?}"
        );
    }
}

#[test]
fn packs_as_the_layout_says(rt: HostRuntime) {
    assert_keys(&rt);
}

#[test]
fn what_is_no_key_has_no_houses(rt: HostRuntime) {
    for key in [
        0,
        0x7000_0000_0000_0000,
        0x1000_0002_0000_0028,
        0x1000_0004_0000_0010,
    ] {
        assert!(rt; unpack(key).is_none(), "{key}");
    }
}
