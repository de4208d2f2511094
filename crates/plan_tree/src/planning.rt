ghost use Rattle.std.specs.Prelude.{◌≡◌};
ghost use Rattle.plan_tree.specs.Plans as plans;

/// How a session plans: whether leaves are pruned, whether there are Hash Joins, whether there are partitionwise joins, and
/// whether the plans of prepared statements are generic.
/// A custom plan is made of a statement with the values of its parameters in their places. A generic plan is made
/// without the values of parameters that are operands by themselves; these prune its leaves when it starts.
#[derive(Debug, Clone, Copy)]
pub struct Planning {
    pub prunes: bool,
    pub hashes: bool,
    pub pairs: bool,
    pub is_generic: bool,
}

impl Planning {
    /// Without FROM there is nothing to prune, to join or to start.
    pub fn without_from() -> Planning
        ensures { result ≡ plans.without_from }
    {
        Planning {
            prunes: false,
            hashes: false,
            pairs: false,
            is_generic: false,
        }
    }

    /// The parameters whose values stay apart from the conditions that a plan is made of: all of them where it is generic.
    pub fn apart<T>(self, params: &[T]) -> &[T]
        ensures { result.now ≡ plans.apart self params.now }
    {
        if self.is_generic { params } else { &[] }
    }
}
