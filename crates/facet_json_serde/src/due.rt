//! What may come next of a value that is written.

ghost use Rattle.std.specs.Prelude.{◌≡◌};
ghost use Rattle.facet_json_serde.specs.OneValue.{takes_value, stage_after_value};

/// What may come next, in the innermost container that is open.
#[derive(Clone, Copy)]
pub(crate) enum Due {
    /// The value itself.
    Value,
    /// Nothing: the value is whole.
    Whole,
    /// An item of a list, or its end.
    Item,
    /// A key of a struct, or its end.
    Key,
    /// The value of the key.
    Named,
}

impl Due {
    /// Whether a value may come.
    #[inline(always)]
    pub(crate) fn takes_value(self) -> bool
        ensures { result ≡ takes_value self }
    {
        match self {
            Due::Value | Due::Item | Due::Named => true,
            Due::Whole | Due::Key => false,
        }
    }

    /// What may come once a value has come.
    #[inline(always)]
    pub(crate) fn after_value(self) -> Due
        ensures { result ≡ stage_after_value self }
    {
        match self {
            Due::Value | Due::Whole => Due::Whole,
            Due::Item => Due::Item,
            Due::Key | Due::Named => Due::Key,
        }
    }
}
