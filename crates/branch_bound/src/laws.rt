// Laws of the definitions: functions that do nothing, whose contracts are what is proved.
ghost use Rattle.branch_bound.specs.StatedLists.{StatedListsExist};

/// Each programme has its stated lists, so that what is said of them is not said of nothing.
pub fn stated_lists_exist()
    ensures { StatedListsExist }
{}
