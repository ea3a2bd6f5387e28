// What stays of the loader's record behind it.
ghost use Rattle.guest_boot.specs.Stored.{LoadsKeep};

/// The loads with which the loader splits seats off and joins them leave the words, so the machine begins by them still.
pub fn law_splits()
    ensures { LoadsKeep }
{}
