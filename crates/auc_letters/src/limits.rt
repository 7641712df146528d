//! The limits of eps and of shards, and the number that means nobody.

/// The greatest eps, 2 to the 60th, in scaled costs. The least is 1.
pub const MOST_EPS: i64 = 1_152_921_504_606_846_976;

/// The eps of the last phase, in scaled costs: within it epsilon-complementary slackness leaves no assignment of less
/// cost.
pub const LAST_EPS: i64 = 1;

/// The greatest number of shards of the persons, and of the objects.
pub const MOST_SHARDS: u32 = 16;

/// In place of a person, nobody; in place of an object, none. Persons and objects have lower numbers.
pub const NOBODY: u32 = 4_294_967_295;
