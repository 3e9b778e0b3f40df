//! Worked examples of questions: each function does no work, and its clauses are the examples.
ghost use Rattle.ps_saturate.specs.Examples.{BothLeadToOne, NothingIsNew, NothingLeadsAlone, OneIsNew, ThreadsOfPosts};

/// What leads by `x := x + 1` to `x >= 1`: from the predicates `x >= 1` and `x >= 0` both, each by itself.
pub fn answers_on_a_counter()
    ensures both { BothLeadToOne }
    ensures one { OneIsNew }
    ensures none { NothingIsNew }
    ensures alone { NothingLeadsAlone }
{}

/// The threads of posts.
pub fn threads_of_posts()
    ensures { ThreadsOfPosts }
{}
