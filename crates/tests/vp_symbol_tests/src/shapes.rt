//! Shapes, against pictures and sums that were found by fractions, apart from this code.

use std::process::Abort;
use vp_dots::{Ink, Op, dot_of};
use vp_shapes::{Diagonal, Leaning, Ring, Rounded};

/// Whether a shape shows just the dots of a picture, painted and asked for.
fn shows<I: Ink>(shape: &I, picture: &[&str]) -> bool {
    let (width, height) = shape.size();
    if picture.len() != height as usize {
        return false;
    }
    for y in 0..height {
        let mut row = [0; 3];
        shape.paint_row(y, Op::Flip, 2, &mut row);
        let line = picture[y as usize].as_bytes();
        if line.len() != width as usize || dot_of(&row, 1) || dot_of(&row, u128::from(width) + 2) {
            return false;
        }
        for x in 0..width {
            let is_black = line[x as usize] == b'#';
            if shape.ink(x, y) != is_black || dot_of(&row, u128::from(x) + 2) != is_black {
                return false;
            }
        }
    }
    true
}

/// The sum of x + 3 y + 1 over the dots with ink.
fn weight<I: Ink>(shape: &I) -> u64 {
    let (width, height) = shape.size();
    let mut sum = 0u64;
    for y in 0..height {
        for x in 0..width {
            if shape.ink(x, y) {
                sum = sum
                    .wrapping_add(u64::from(x))
                    .wrapping_add(3 * u64::from(y))
                    .wrapping_add(1);
            }
        }
    }
    sum
}

const fn ring(width: u16, height: u16, thickness: u16) -> Ring {
    Ring {
        width,
        height,
        thickness,
    }
}

const fn rounded(width: u16, height: u16, thickness: u16, rounding: u8) -> Rounded {
    Rounded {
        width,
        height,
        thickness,
        rounding,
    }
}

const fn diagonal(width: u16, height: u16, thickness: u16, leaning: Leaning) -> Diagonal {
    Diagonal {
        width,
        height,
        thickness,
        leaning,
    }
}

#[test]
fn rings(rt: HostRuntime) {
    assert!(rt;
        shows(
            &ring(9, 9, 2),
            &[
                "..#####..",
                ".#######.",
                "###...###",
                "##.....##",
                "##.....##",
                "##.....##",
                "###...###",
                ".#######.",
                "..#####..",
            ]
        )
    );
    assert!(rt;
        shows(
            &ring(12, 7, 2),
            &[
                "...######...",
                ".##########.",
                "###......###",
                "##........##",
                "###......###",
                ".##########.",
                "...######...",
            ]
        )
    );
    assert!(rt; shows(&ring(5, 4, 2), &[".###.", "#####", "#####", ".###."]));
    assert!(rt; shows(&ring(0, 3, 1), &["", "", ""]));
    let mut sum = 0u64;
    for width in 1..25 {
        for height in 1..25 {
            for thickness in 1..6 {
                sum = sum.wrapping_add(weight(&ring(width, height, thickness)));
            }
        }
    }
    assert_eq!(rt; sum, 6_713_333);
}

#[test]
fn round_corners(rt: HostRuntime) {
    assert!(rt;
        shows(
            &rounded(14, 8, 2, 4),
            &[
                ".############.",
                "##############",
                "##..........##",
                "##..........##",
                "##..........##",
                "##..........##",
                "##############",
                ".############.",
            ]
        )
    );
    assert!(rt;
        shows(
            &rounded(10, 10, 1, 8),
            &[
                "...####...",
                ".##....##.",
                ".#......#.",
                "#........#",
                "#........#",
                "#........#",
                "#........#",
                ".#......#.",
                ".##....##.",
                "...####...",
            ]
        )
    );
    assert!(rt;
        shows(
            &rounded(6, 6, 3, 2),
            &["######", "######", "######", "######", "######", "######"]
        )
    );
    assert!(rt; shows(&rounded(4, 4, 1, 1), &["####", "#..#", "#..#", "####"]));
    let mut sum = 0u64;
    for width in 1..21 {
        for height in 1..21 {
            for thickness in 1..5 {
                for rounding in 0..9 {
                    sum = sum.wrapping_add(weight(&rounded(width, height, thickness, rounding)));
                }
            }
        }
    }
    assert_eq!(rt; sum, 23_560_354);
}

#[test]
fn diagonals(rt: HostRuntime) {
    assert!(rt;
        shows(
            &diagonal(10, 5, 3, Leaning::Right),
            &[
                ".......###",
                "......###.",
                "....###...",
                "..###.....",
                "###.......",
            ]
        )
    );
    assert!(rt;
        shows(
            &diagonal(10, 5, 3, Leaning::Left),
            &[
                "###.......",
                ".###......",
                "...###....",
                ".....###..",
                ".......###",
            ]
        )
    );
    let mut sum = 0u64;
    for width in 1..25 {
        for height in 1..25 {
            for thickness in 1..6 {
                sum = sum.wrapping_add(weight(&diagonal(width, height, thickness, Leaning::Left)));
                sum = sum.wrapping_add(weight(&diagonal(width, height, thickness, Leaning::Right)));
            }
        }
    }
    assert_eq!(rt; sum, 6_133_500);
}
