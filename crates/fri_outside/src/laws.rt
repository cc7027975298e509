// The law of folders, as a call that does nothing.
ghost use Rattle.fri_outside.specs.Laws.{KeepsFiles};

/// What is put into a folder is found in it, also where several files are made and grow side by side.
pub fn keeps_files()
    ensures { KeepsFiles }
{}
