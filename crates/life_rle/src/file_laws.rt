//! Laws of all files and records. Calling one does nothing.
ghost use Rattle.life_rle.specs.RleLaws.{LinesAreTheFile, ItemsAreTheBody, RunsAreLongest, HeadersGiveTheBox, HeadersAreRead, BodiesAreCanonical, OneCanonicalBody, NotesAreTheLines, TextsAreTheFile, RecordsAreRead, IsReadAgain, IsFileAgain};

/// Cutting a file into lines, a body into items and tags into runs loses no byte. A header gives the width and height
/// of the cells' box.
pub fn laws_of_lines_and_runs()
    ensures lines { LinesAreTheFile }
    ensures items { ItemsAreTheBody }
    ensures runs { RunsAreLongest }
    ensures headers { HeadersGiveTheBox }
{}

/// A line is read as a header exactly when it has the form of one, with that form's rule text.
pub fn law_of_headers()
    ensures { HeadersAreRead }
{}

/// A record's body is canonical: its lines are full, its runs are as few as possible, and read back they place exactly
/// the record's cells. Cells have at most one canonical body.
pub fn laws_of_canonical_bodies()
    ensures canonical { BodiesAreCanonical }
    ensures one { OneCanonicalBody }
{}

/// A record has the first name and the first author of its file. The other texts are its comments, in their order.
pub fn laws_of_texts()
    ensures notes { NotesAreTheLines }
    ensures records { TextsAreTheFile }
{}

/// Every file that is read gives a valid record, and a record's text is read as the same record.
pub fn laws_of_files()
    ensures records { RecordsAreRead }
    ensures again { IsReadAgain }
    ensures file { IsFileAgain }
{}
