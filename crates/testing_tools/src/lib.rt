//! What tests share: comparisons, iterators, an allocator that refuses, a field and checksums of
//! their own, and the definitions as slow code.
#![tactic(auto)]

pub mod code;
pub mod codes;
pub mod compare;
pub mod heaps;
pub mod iterators;
pub mod known;
pub mod memory;
pub mod plain;
pub mod rows;
pub mod seven;
pub mod writers;
