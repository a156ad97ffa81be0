//! Rasters on paper.
use super::{Case, M, Strip, right};
use std::test::Fail;
use vp_receipt::Width;

static RASTERS: [Case; 4] = [
    (
        b"\x1Dv0\0\x01\0\x02\0\x80\x01",
        &[Strip {
            head: b"P4\n576 2\n",
            rows: &[(1, b"\x80"), (1, b"\x01")],
        }],
    ),
    (
        b"\x1Dv0\x03\x01\0\x01\0\x80",
        &[Strip {
            head: b"P4\n576 2\n",
            rows: &[(2, b"\xC0")],
        }],
    ),
    (b"\x1Dv0\0\0\0\x05\0", &[]),
    (
        b"\
        M\x1Dv0\0I\0\x01\0\0\0\0\0\0\0\0\0\0\0\0\0\0\0\0\0\0\0\0\0\0\0\0\0\0\0\0\
        \0\0\0\0\0\0\0\0\0\0\0\0\0\0\0\0\0\0\0\0\0\0\0\0\0\0\0\0\0\0\0\0\0\0\0\0\
        \0\0\0\0\0\0\0\0\0\xFF",
        &[
            M,
            Strip {
                head: b"P4\n576 1\n",
                rows: &[(1, b"")],
            },
        ],
    ),
];

static NARROW_RASTERS: [Case; 1] = [(
    b"\x1Dv0\0\x01\0\x02\0\x80\x01",
    &[Strip {
        head: b"P4\n384 2\n",
        rows: &[(1, b"\x80"), (1, b"\x01")],
    }],
)];

#[test]
fn rasters(rt: HostRuntime) -> Result<(), Fail> {
    right(&rt, rt.alloc(), Width::W576, &RASTERS)?;
    right(&rt, rt.alloc(), Width::W384, &NARROW_RASTERS)
}
