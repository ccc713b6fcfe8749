//! The limits that a listing may set.

/// A limit: what is allowed without a line that sets it, the least that a line may allow, and
/// whether such a line is read so far.
#[derive(Clone, Copy, Debug, PartialEq, Eq)]
pub struct Limit {
    pub default: u64,
    pub least: u64,
    pub is_built: bool,
}

/// A `limit` line: the name of the limit that it sets, and to what.
#[derive(Clone, Copy)]
pub struct LimitLine {
    pub name: &'static str,
    pub number: u64,
}

/// The limits by their names.
pub const LIMITS: [(&str, Limit); 7] = [
    (
        "operations",
        Limit {
            default: 1_000_000,
            least: 1,
            is_built: true,
        },
    ),
    (
        "levels",
        Limit {
            default: 64,
            least: 0,
            is_built: true,
        },
    ),
    (
        "variables",
        Limit {
            default: 10_000,
            least: 0,
            is_built: true,
        },
    ),
    (
        "modules",
        Limit {
            default: 1_000,
            least: 0,
            is_built: false,
        },
    ),
    (
        "text",
        Limit {
            default: 0,
            least: 0,
            is_built: true,
        },
    ),
    (
        "array",
        Limit {
            default: 0,
            least: 0,
            is_built: true,
        },
    ),
    (
        "map",
        Limit {
            default: 0,
            least: 0,
            is_built: true,
        },
    ),
];
