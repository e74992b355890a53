// Which of the posts of a ring fail, and how posts are counted.
ghost use Rattle.std.specs.Prelude.{◌≡◌, ℕ, ◌+◌, ◌<◌};
ghost use Rattle.pv_post.specs.Plan.{is_due, since_due};

/// Which posts of a ring fail. A number of 0 means none.
#[derive(Clone, Copy, Debug, PartialEq, Eq)]
pub struct FaultPlan {
    /// Each post whose number is a multiple of this is lost.
    pub drop_each: u32,
    /// Each other post whose number is a multiple of this counts twice.
    pub double_each: u32,
}

// How many posts came since the last due one, when one more has come.
pub(crate) fn count_on(each: u32, since: u32) -> u32
    requires { 0 < each → since < each }
    ensures { (n : ℕ) → since ≡ since_due each n → result ≡ since_due each (n + 1) }
{
    if each == 0 {
        return 0;
    }
    let next = since + 1;
    if next == each { 0 } else { next }
}

// Whether the last post was due.
pub(crate) fn fits(each: u32, since: u32) -> bool
    ensures { (n : ℕ) → since ≡ since_due each n → result ≡ is_due each n }
{
    each != 0 && since == 0
}
