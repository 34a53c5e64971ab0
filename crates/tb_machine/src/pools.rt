//! The pools in which a server's records are.

/// Calls a function over the upper of two pools of memory from an allocator, and frees both after it.
///
/// Blocks of a pool are adjacent, and are freed all at once. Those of a pool over malloc begin 16 bytes past a cache line, as malloc's do, and each
/// pool below moves them by 16 more: so over three others a node begins at a line. Where one such call is within another, the inner function has
/// its records in such a pool.
#[macro_export]
macro_rules! over_two_pools {
    ($alloc:expr, $pool:ident, $call:expr) => {{
        let lower = bumpalo::Bump::new($alloc);
        let $pool = bumpalo::Bump::new(&lower);
        let served = $call;
        drop($pool);
        drop(lower);
        served
    }};
}
