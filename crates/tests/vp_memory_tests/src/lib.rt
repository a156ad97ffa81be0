//! Tests alone: each call that takes memory succeeds, and where an allocation is refused it answers that. The
//! script `checks/memory.sh` refuses them one after the other, and sees that each refusal is answered.
#![tactic(auto)]

#[cfg(test)]
mod tests;
