use crate::cases::Kind;
use crate::ways::{Way, each_prints};
use std::test::Fail;

#[test]
fn each_stream_prints_its_images(rt: HostRuntime) -> Result<(), Fail> {
    each_prints(&rt, rt.alloc(), Kind::Streams, Way::InOnePiece)
}

#[test]
fn each_page_prints_its_images(rt: HostRuntime) -> Result<(), Fail> {
    each_prints(&rt, rt.alloc(), Kind::Pages, Way::InOnePiece)
}

#[test]
fn each_symbol_prints_its_image(rt: HostRuntime) -> Result<(), Fail> {
    each_prints(&rt, rt.alloc(), Kind::Symbols, Way::InOnePiece)
}

#[test]
fn each_label_prints_its_images(rt: HostRuntime) -> Result<(), Fail> {
    each_prints(&rt, rt.alloc(), Kind::Labels, Way::InOnePiece)
}

#[test]
fn each_stream_is_cut_into_bytes(rt: HostRuntime) -> Result<(), Fail> {
    each_prints(&rt, rt.alloc(), Kind::Streams, Way::InBytes)
}

#[test]
fn each_page_is_cut_into_bytes(rt: HostRuntime) -> Result<(), Fail> {
    each_prints(&rt, rt.alloc(), Kind::Pages, Way::InBytes)
}

#[test]
fn each_symbol_is_cut_into_bytes(rt: HostRuntime) -> Result<(), Fail> {
    each_prints(&rt, rt.alloc(), Kind::Symbols, Way::InBytes)
}

#[test]
fn each_label_is_cut_into_bytes(rt: HostRuntime) -> Result<(), Fail> {
    each_prints(&rt, rt.alloc(), Kind::Labels, Way::InBytes)
}

#[test]
fn each_front_is_pumped_as_it_prints(rt: HostRuntime) -> Result<(), Fail> {
    each_prints(&rt, rt.alloc(), Kind::Streams, Way::ByFronts)
}

#[test]
fn each_front_of_a_page_is_pumped_as_it_prints(rt: HostRuntime) -> Result<(), Fail> {
    each_prints(&rt, rt.alloc(), Kind::Pages, Way::ByFronts)
}

#[test]
fn each_front_of_a_symbol_is_pumped_as_it_prints(rt: HostRuntime) -> Result<(), Fail> {
    each_prints(&rt, rt.alloc(), Kind::Symbols, Way::ByFronts)
}

#[test]
fn each_front_of_a_label_is_pumped_as_it_prints(rt: HostRuntime) -> Result<(), Fail> {
    each_prints(&rt, rt.alloc(), Kind::Labels, Way::ByFronts)
}

#[test]
fn a_failed_read_or_write_loses_nothing(rt: HostRuntime) -> Result<(), Fail> {
    each_prints(&rt, rt.alloc(), Kind::Streams, Way::Failing(300))
}

#[test]
fn a_failed_read_or_write_loses_no_page(rt: HostRuntime) -> Result<(), Fail> {
    each_prints(&rt, rt.alloc(), Kind::Pages, Way::Failing(300))
}

#[test]
fn a_failed_read_or_write_loses_no_symbol(rt: HostRuntime) -> Result<(), Fail> {
    each_prints(&rt, rt.alloc(), Kind::Symbols, Way::Failing(300))
}

#[test]
fn a_failed_read_or_write_loses_no_label(rt: HostRuntime) -> Result<(), Fail> {
    each_prints(&rt, rt.alloc(), Kind::Labels, Way::Failing(10))
}
