//! What numbers of commands mean.
use vp_code_tables::{
    ByteOrder, CodeTable, Country, Encoding, LabelSet, NationalSet, esc_r, esc_t, fs_c, zpl_ci,
};

#[test]
fn receipts(rt: HostRuntime) {
    assert_eq!(rt; esc_t(0), Some(CodeTable::Cp437));
    assert_eq!(rt; esc_t(19), Some(CodeTable::Cp858));
    assert_eq!(rt; esc_t(6), None);
    assert_eq!(rt; esc_r(2), Some(Country::Germany));
    assert_eq!(rt; esc_r(17), Some(Country::Usa));
    assert_eq!(rt; esc_r(18), None);
    assert_eq!(rt;
        fs_c(50, CodeTable::Cp437, Country::Usa),
        Some(Encoding::Utf8)
    );
    assert_eq!(rt; fs_c(0, CodeTable::Cp437, Country::Usa), None);
}

#[test]
fn labels(rt: HostRuntime) {
    let plain = Encoding::Bytes(CodeTable::Cp850, NationalSet::Label(LabelSet::Plain));
    let windows = Encoding::Bytes(CodeTable::Cp1252, NationalSet::Country(Country::Usa));
    assert_eq!(rt; zpl_ci(13), Some(plain));
    assert_eq!(rt; zpl_ci(27), Some(windows));
    assert_eq!(rt; zpl_ci(28), Some(Encoding::Utf8));
    assert_eq!(rt; zpl_ci(30), Some(Encoding::Utf16(ByteOrder::LowFirst)));
    assert_eq!(rt; zpl_ci(15), None);
    assert_eq!(rt; zpl_ci(37), None);
}
