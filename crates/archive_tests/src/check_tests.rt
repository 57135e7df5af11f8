//! Checks of a sound archive and of damaged ones. Each table and column is damaged by SQL that all constraints allow.
use life_check::{CheckVerdict, Unwatched, Wrong, check_trees, further_errors};
use sqlite::{Connection, Error, MemStore};
use std::alloc::Global;
use std::test::Fail;

/// The tables as an archive has them: two deposits, and two censuses, of the second and of the first deposit.
const SOUND: [&str; 14] = [
    "CREATE TABLE layout (version INTEGER NOT NULL) STRICT",
    "CREATE TABLE deposits (id INTEGER PRIMARY KEY, member TEXT NOT NULL, token TEXT NOT NULL, rule TEXT NOT NULL, population INTEGER NOT NULL CHECK (population >= 0), rle BLOB NOT NULL, UNIQUE (member, token)) STRICT",
    "CREATE TABLE censuses (id INTEGER PRIMARY KEY, member TEXT NOT NULL, token TEXT NOT NULL, deposit INTEGER NOT NULL REFERENCES deposits (id), gens INTEGER NOT NULL, lim INTEGER NOT NULL, clusters INTEGER NOT NULL, unresolved INTEGER NOT NULL, UNIQUE (member, token)) STRICT",
    "CREATE TABLE census_rows (census INTEGER NOT NULL REFERENCES censuses (id), code TEXT NOT NULL, n INTEGER NOT NULL CHECK (n > 0), PRIMARY KEY (census, code)) STRICT",
    "CREATE TABLE census_flags (census INTEGER PRIMARY KEY REFERENCES censuses (id), steady INTEGER NOT NULL CHECK (steady IN (0, 1))) STRICT",
    "INSERT INTO layout (version) VALUES (2)",
    "INSERT INTO deposits VALUES (1, 'ann', 't1', 'B3/S23', 5, x'78203d20332c2079203d20332c2072756c65203d2042332f5332330a626f2432626f24336f210a')",
    "INSERT INTO deposits VALUES (2, 'ann', 't2', 'B3/S23', 4, x'78203d20322c2079203d20322c2072756c65203d2042332f5332330a326f24326f210a')",
    "INSERT INTO censuses VALUES (1, 'ann', 'c1', 2, 7, 2, 1, 0)",
    "INSERT INTO censuses VALUES (2, 'bob', 'c1', 1, 4, 4, 1, 0)",
    "INSERT INTO census_rows VALUES (1, 'xs4_33', 1)",
    "INSERT INTO census_rows VALUES (2, 'xq4_153', 1)",
    "INSERT INTO census_flags VALUES (1, 1)",
    "INSERT INTO census_flags VALUES (2, 0)",
];

/// Changes of the tables, and the expected first errors.
const DAMAGED: [(&str, Wrong); 30] = [
    ("UPDATE layout SET version = 3", Wrong::Layout),
    ("INSERT INTO layout (version) VALUES (2)", Wrong::Layout),
    ("DELETE FROM layout", Wrong::Layout),
    ("UPDATE layout SET rowid = 2", Wrong::Layout),
    (
        "UPDATE deposits SET rule = 'B36/S23' WHERE id = 1",
        Wrong::Deposit(1),
    ),
    (
        "UPDATE deposits SET population = 6 WHERE id = 2",
        Wrong::Deposit(2),
    ),
    (
        "UPDATE deposits SET rle = x'78203d20322c2079203d20322c2072756c65203d2042332f5332330a326f24326f210a0a' WHERE id = 2",
        Wrong::Deposit(2),
    ),
    (
        "UPDATE deposits SET rle = x'78203d20332c2079203d20332c2072756c65203d2042332f5332330a626f2432626f246f6f6f210a' WHERE id = 1",
        Wrong::Deposit(1),
    ),
    (
        "UPDATE deposits SET rle = x'78203d20332c2079203d20330a626f2432626f24336f210a' WHERE id = 1",
        Wrong::Deposit(1),
    ),
    (
        "UPDATE deposits SET rle = x'00' WHERE id = 1",
        Wrong::Deposit(1),
    ),
    (
        "INSERT INTO deposits VALUES (0, 'ann', 't3', 'B3/S23', 4, x'78203d20322c2079203d20322c2072756c65203d2042332f5332330a326f24326f210a')",
        Wrong::Deposit(1),
    ),
    (
        "INSERT INTO deposits VALUES (4, 'ann', 't3', 'B3/S23', 4, x'78203d20322c2079203d20322c2072756c65203d2042332f5332330a326f24326f210a')",
        Wrong::Deposit(3),
    ),
    (
        "UPDATE deposits SET member = 'Ann' WHERE id = 1",
        Wrong::DepositNames(1),
    ),
    (
        "UPDATE deposits SET token = 't 2' WHERE id = 2",
        Wrong::DepositNames(2),
    ),
    (
        "UPDATE censuses SET member = '' WHERE id = 1",
        Wrong::Census(1),
    ),
    (
        "UPDATE censuses SET token = 'c_1' WHERE id = 2",
        Wrong::Census(2),
    ),
    (
        "UPDATE censuses SET deposit = 1 WHERE id = 1",
        Wrong::Census(1),
    ),
    (
        "UPDATE censuses SET gens = 2049 WHERE id = 1",
        Wrong::Census(1),
    ),
    (
        "UPDATE censuses SET gens = -1 WHERE id = 1",
        Wrong::Census(1),
    ),
    ("UPDATE censuses SET lim = 0 WHERE id = 1", Wrong::Census(1)),
    ("UPDATE censuses SET lim = 3 WHERE id = 2", Wrong::Census(2)),
    (
        "UPDATE censuses SET clusters = 2 WHERE id = 2",
        Wrong::Census(2),
    ),
    (
        "UPDATE censuses SET unresolved = 1 WHERE id = 1",
        Wrong::Census(1),
    ),
    (
        "UPDATE census_rows SET code = 'xs4_3' WHERE census = 1",
        Wrong::Census(1),
    ),
    (
        "UPDATE census_rows SET n = 2 WHERE census = 2",
        Wrong::Census(2),
    ),
    (
        "UPDATE census_rows SET rowid = 3 WHERE census = 2",
        Wrong::Census(2),
    ),
    (
        "INSERT INTO census_rows VALUES (2, 'xs4_33', 1)",
        Wrong::Census(3),
    ),
    ("DELETE FROM census_rows WHERE census = 1", Wrong::Census(1)),
    (
        "UPDATE census_flags SET steady = 0 WHERE census = 1",
        Wrong::Census(1),
    ),
    (
        "DELETE FROM census_flags WHERE census = 2",
        Wrong::Census(2),
    ),
];

/// Changes that leave the archive sound: only the member and the token of a row.
const OTHERS: [&str; 2] = [
    "UPDATE deposits SET member = 'bob', token = 't9' WHERE id = 1",
    "UPDATE censuses SET member = 'eve', token = 't9' WHERE id = 1",
];

/// Changes that only counting finds.
const UNCOUNTED: [&str; 5] = [
    "UPDATE censuses SET deposit = 1 WHERE id = 1",
    "UPDATE censuses SET gens = 5 WHERE id = 1",
    "UPDATE censuses SET lim = 3 WHERE id = 2",
    "UPDATE census_rows SET code = 'xs4_3' WHERE census = 1",
    "UPDATE census_flags SET steady = 0 WHERE census = 1",
];

/// Changes that a quick check finds, with the expected first errors.
const FOUND_QUICKLY: [(&str, Wrong); 10] = [
    ("DELETE FROM layout", Wrong::Layout),
    (
        "UPDATE deposits SET population = 6 WHERE id = 2",
        Wrong::Deposit(2),
    ),
    (
        "UPDATE deposits SET member = 'Ann' WHERE id = 1",
        Wrong::DepositNames(1),
    ),
    ("UPDATE censuses SET lim = 0 WHERE id = 1", Wrong::Census(1)),
    (
        "UPDATE censuses SET clusters = 2 WHERE id = 2",
        Wrong::Census(2),
    ),
    (
        "UPDATE censuses SET unresolved = 2 WHERE id = 1",
        Wrong::Census(1),
    ),
    (
        "UPDATE census_rows SET n = 2 WHERE census = 2",
        Wrong::Census(2),
    ),
    ("DELETE FROM census_rows WHERE census = 1", Wrong::Census(1)),
    (
        "INSERT INTO census_rows VALUES (2, 'xs4_33', 1)",
        Wrong::Census(3),
    ),
    (
        "DELETE FROM census_flags WHERE census = 2",
        Wrong::Census(2),
    ),
];

fn store_with(alloc: Global, changes: &[&str]) -> Result<MemStore, Error> {
    let mut conn = Connection::open_in_memory(alloc)?;
    for statement in SOUND {
        conn.execute(statement, &[])?;
    }
    for statement in changes {
        conn.execute(statement, &[])?;
    }
    Ok(conn.into_store())
}

/// The result of a check after these changes. An error of the check itself is `QueryReturnedNoRows`.
fn found(alloc: Global, changes: &[&str], quick: bool) -> Result<CheckVerdict, Error> {
    let mut store = store_with(alloc, changes)?;
    match check_trees(&mut store, alloc, quick, &mut Unwatched) {
        Ok(verdict) => Ok(verdict),
        Err(_) => Err(Error::QueryReturnedNoRows),
    }
}

/// The first error, and those after it.
fn listed(alloc: Global, changes: &[&str], quick: bool) -> Result<(Wrong, Vec<Wrong>), Error> {
    let mut store = store_with(alloc, changes)?;
    let Ok(CheckVerdict::NotSound(first)) = check_trees(&mut store, alloc, quick, &mut Unwatched)
    else {
        return Err(Error::QueryReturnedNoRows);
    };
    let further = further_errors(&mut store, alloc, quick, first, &mut Unwatched);
    Ok((first, further))
}

#[test]
fn an_archive_is_sound(rt: HostRuntime) -> Result<(), Fail> {
    assert_eq!(rt;
        found(rt.alloc(), &[], false),
        Ok(CheckVerdict::Sound(2, 2))
    );
    assert_eq!(rt;
        found(rt.alloc(), &[], true),
        Ok(CheckVerdict::SoundButForCounts(2, 2))
    );
    for statement in OTHERS {
        assert_eq!(rt;
            found(rt.alloc(), &[statement], false),
            Ok(CheckVerdict::Sound(2, 2)),
            "{statement}"
        );
    }
    Ok(())
}

#[test]
fn each_damage_is_found(rt: HostRuntime) -> Result<(), Fail> {
    for (statement, wrong) in DAMAGED {
        assert_eq!(rt;
            found(rt.alloc(), &[statement], false),
            Ok(CheckVerdict::NotSound(wrong)),
            "{statement}"
        );
    }
    Ok(())
}

#[test]
fn a_quick_check_counts_nothing(rt: HostRuntime) -> Result<(), Fail> {
    for statement in UNCOUNTED {
        assert_eq!(rt;
            found(rt.alloc(), &[statement], true),
            Ok(CheckVerdict::SoundButForCounts(2, 2)),
            "{statement}"
        );
    }
    for (statement, wrong) in FOUND_QUICKLY {
        assert_eq!(rt;
            found(rt.alloc(), &[statement], true),
            Ok(CheckVerdict::NotSound(wrong)),
            "{statement}"
        );
    }
    Ok(())
}

const MORE_DEPOSITS: [&str; 2] = [
    "INSERT INTO deposits VALUES (5, 'ann', 't5', 'B3/S23', 4, x'78203d20322c2079203d20322c2072756c65203d2042332f5332330a326f24326f210a')",
    "INSERT INTO deposits VALUES (7, 'ann', 't7', 'B3/S23', 4, x'78203d20322c2079203d20322c2072756c65203d2042332f5332330a326f24326f210a')",
];

const FAR_DEPOSIT: &str =
    "INSERT INTO deposits VALUES (1000000000, 'ann', 't5', 'B3/S23', 4, x'78203d20322c2079203d20322c2072756c65203d2042332f5332330a326f24326f210a')";

/// Changes, the first error, and those after it.
const LISTED: [(&[&str], Wrong, &[Wrong]); 9] = [
    (
        &["UPDATE deposits SET population = 6 WHERE id = 1"],
        Wrong::Deposit(1),
        // Census 2 is of this deposit, so it can't be counted.
        &[Wrong::Census(2)],
    ),
    (
        &[
            "UPDATE deposits SET member = 'Ann' WHERE id = 2",
            "UPDATE deposits SET token = 't 1' WHERE id = 1",
        ],
        Wrong::DepositNames(1),
        &[Wrong::DepositNames(2)],
    ),
    (
        &MORE_DEPOSITS,
        Wrong::Deposit(3),
        &[Wrong::Deposit(4), Wrong::Deposit(6)],
    ),
    (
        &["UPDATE census_flags SET steady = 1 - steady"],
        Wrong::Census(1),
        &[Wrong::Census(2)],
    ),
    (
        &["DELETE FROM census_rows WHERE census = 1"],
        Wrong::Census(1),
        &[],
    ),
    (
        &["INSERT INTO census_rows VALUES (2, 'xs4_33', 1)"],
        Wrong::Census(3),
        &[],
    ),
    (
        &[
            "INSERT INTO census_rows VALUES (2, 'xs4_33', 1)",
            "UPDATE census_flags SET steady = 0 WHERE census = 1",
        ],
        Wrong::Census(1),
        &[Wrong::Census(3)],
    ),
    (
        &[
            "UPDATE layout SET version = 3",
            "UPDATE deposits SET member = 'Ann' WHERE id = 1",
            "UPDATE censuses SET lim = 0 WHERE id = 2",
        ],
        Wrong::Layout,
        &[Wrong::DepositNames(1), Wrong::Census(2)],
    ),
    (
        &["INSERT INTO censuses VALUES (4, 'eve', 'c1', 1, 4, 4, 1, 0)"],
        Wrong::Census(3),
        &[Wrong::Census(4)],
    ),
];

#[test]
fn each_error_is_listed(rt: HostRuntime) -> Result<(), Fail> {
    for (changes, first, further) in LISTED {
        let Ok(found) = listed(rt.alloc(), changes, false) else {
            assert!(rt; false, "{first:?} was not found");
            return Ok(());
        };
        assert_eq!(rt; found.0, first);
        assert_eq!(rt; found.1.as_slice(), further);
    }
    Ok(())
}

#[test]
fn at_most_a_hundred_are_listed(rt: HostRuntime) -> Result<(), Fail> {
    let Ok((first, further)) = listed(rt.alloc(), &[FAR_DEPOSIT], true) else {
        assert!(rt; false, "no error was found");
        return Ok(());
    };
    assert_eq!(rt; first, Wrong::Deposit(3));
    assert_eq!(rt; further.len(), 99);
    assert_eq!(rt; further.as_slice()[98], Wrong::Deposit(102));
    Ok(())
}
