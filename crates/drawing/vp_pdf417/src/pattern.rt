//! The patterns of codewords.

ghost use Rattle.std.specs.Prelude.{◌≡◌, ◌<◌, ◌+◌, ◌*◌, true};
ghost use Rattle.vp_pdf417.specs.declared.cluster_0.TheConstants.{CLUSTER_0};
ghost use Rattle.vp_pdf417.specs.declared.cluster_3.TheConstants.{CLUSTER_3};
ghost use Rattle.vp_pdf417.specs.declared.cluster_6.TheConstants.{CLUSTER_6};
ghost use Rattle.vp_pdf417.specs.Patterns.{inner, pattern, are_of_cluster};

use crate::{cluster_0, cluster_3, cluster_6};

/// The 15 inner modules of a codeword, in the cluster of a row.
#[tactic(auto, unfolding(crate::specs::Patterns::inner))]
fn inner(row: usize, codeword: u16) -> u16
    requires { codeword < 929 }
    ensures { result ≡ inner row codeword }
{
    match row % 3 {
        0 => cluster_0::inner(codeword),
        1 => cluster_3::inner(codeword),
        _ => cluster_6::inner(codeword),
    }
}

/// The 17 modules of a codeword, the leftmost highest.
pub fn pattern(row: usize, codeword: u16) -> u32
    requires { codeword < 929 }
    ensures { result ≡ pattern row codeword }
{
    65536 + 2 * u32::from(inner(row, codeword))
}

/// Each pattern has four bars and four spaces of one to six modules, and is of its cluster.
pub fn patterns_are_of_their_cluster()
    ensures cluster_0 { are_of_cluster 0 CLUSTER_0 ≡ true }
    ensures cluster_3 { are_of_cluster 3 CLUSTER_3 ≡ true }
    ensures cluster_6 { are_of_cluster 6 CLUSTER_6 ≡ true }
{}
