//! Laws of reports. The functions do nothing.
ghost use Rattle.mac_report.specs.Parts.{PartsJoin};
ghost use Rattle.mac_report.specs.Quiet.{QuietAreSound};

/// What comes before the containers of a file, each container, and what comes after them are, one after the other, a report in JSON
/// as `pef inspect --json` prints it.
pub fn parts_join()
    ensures { PartsJoin }
{}

/// If the report on a file counts no error, none of its containers that was inspected has one, and each is sound unless a note
/// says that something in it wasn't verified (110, 111).
pub fn reports_without_errors_are_right()
    ensures { QuietAreSound }
{}
