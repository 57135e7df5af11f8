//! Laws of all pictures.
ghost use Rattle.std.specs.Prelude.{◌≡◌};
ghost use Rattle.life_pictures.specs.PictureLaws.{DeadAreLeftOut, LinesEndLive, RunsAreTheCells, RunsAreLongest, NamesStayText, FramesAreInTheBox};

use crate::picture_frames::MOST_FRAMES;

/// A line leaves out exactly the dead cells at its end. The runs of a path have exactly the cells, and no two
/// neighbouring runs could be one. No name ends its title. Each frame of an animation lies in the box. A law: calling
/// it does nothing.
pub fn laws_of_pictures()
    ensures dead { DeadAreLeftOut }
    ensures ends { LinesEndLive }
    ensures cells { RunsAreTheCells }
    ensures longest { RunsAreLongest }
    ensures names { NamesStayText }
    ensures framed { FramesAreInTheBox }
    ensures most { MOST_FRAMES ≡ 240 }
{}
