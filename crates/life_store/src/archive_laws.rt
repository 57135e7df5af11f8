//! Laws that check the definitions of archives.
ghost use Rattle.life_store.specs.StoreLaws.{BlankFilesListNothing, OneMeaning, OneFirstMeaning};

/// Files in which nothing was written yet list no table, so an archive opened over them is empty. Rows represent at
/// most one list of deposits and one list of censuses; rows of schema version 1 leave only the flags open. A law:
/// calling it does nothing.
pub fn laws_of_archives()
    ensures blank { BlankFilesListNothing }
    ensures one { OneMeaning }
    ensures first { OneFirstMeaning }
{}
