//! The laws of scripts.
ghost use Rattle.route_lang.specs.Laws.{FirstFaultDecides, SkippedLineIsNone, LinesBeforeAgree};

/// Law: whatever is behind the first faulty line of a script changes nothing.
pub fn law_first_fault_decides()
    ensures { FirstFaultDecides }
{}

/// Law: a line that is blank or a comment may be taken out, where the other lines keep their
/// numbers.
pub fn law_skipped_line_is_none()
    ensures { SkippedLineIsNone }
{}

/// Law: where a text is a script, so is the text of its first lines, and both agree on these.
pub fn law_lines_before_agree()
    ensures { LinesBeforeAgree }
{}
