//! Laws: each holds of all databases.

ghost use Rattle.ospf_lsdb.specs.Laws.{InstallsOne, TickAgesAll, OneDatabaseOfAMap};

/// An install changes the entry of one key.
pub fn installs_one()
    ensures { InstallsOne }
{}

/// A tick makes each entry older, and does nothing else.
pub fn tick_ages_all()
    ensures { TickAgesAll }
{}

/// A map from keys is one database.
pub fn one_database_of_a_map()
    ensures { OneDatabaseOfAMap }
{}
