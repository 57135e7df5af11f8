//! What follows from the contracts of two jobs together.
ghost use Rattle.life_cli.specs.CheckedFiles.{CheckedFilesBegin};

use sqlite_disk::Disk;

/// A file that `life check` calls sound, without `--quick`, is an archive, whichever program wrote it. The next
/// `life serve` or `life deposit` begins with this archive. A law: calling it does nothing.
pub fn law_of_checked_files<D: Disk, E: Disk>()
    ensures { CheckedFilesBegin D.Disk E.Disk }
{}
