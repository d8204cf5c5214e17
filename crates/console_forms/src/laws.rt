//! What holds of the lines, whatever their words.
ghost use Rattle.console_forms.specs.Laws.{SaysBack};

/// States that what `encode` writes is read back as what its line said, each part where it was written.
pub fn says_back()
    ensures { SaysBack }
{}
