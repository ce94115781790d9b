// Numbers that are worked out.
ghost use Rattle.records.specs.Figures.{WrittenFigures};

// What some bytes write.
pub fn written_figures()
    ensures { WrittenFigures }
{}
