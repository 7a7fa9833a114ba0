ghost use Rattle.std.specs.Prelude.{◌≡◌};
ghost use Rattle.meta_rust_text.specs.FlagsText.{arguments_of};

/// The group that a group of settings stands on (`ParentGroup` of `gen_settings.rs`).
#[derive(Clone, Copy)]
pub(crate) enum ParentGroup {
    None,
    Shared,
}

impl ParentGroup {
    pub(crate) fn arguments(self) -> &'static str
        ensures { result.now ≡ arguments_of self }
    {
        match self {
            ParentGroup::None => "builder: Builder",
            ParentGroup::Shared => "shared: &settings::Flags, builder: &Builder",
        }
    }
}
