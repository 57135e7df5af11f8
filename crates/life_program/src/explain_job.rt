//! The job `explain`.
ghost use Rattle.std.specs.Prelude.{◌≡◌, IfErr};
ghost use Rattle.life_jobs.specs.Streams.{PutsText, PutsOnce};
ghost use Rattle.life_words.specs.Explain.{explanation_text};

use life_jobs::{Stop, put_text};
use life_rle::Outlet;
use life_words::explanation;

/// Writes the explanation of the refusals and faults with this name; nothing for an unknown name, which `clap` has
/// already refused.
pub fn run_explain<O: Outlet>(name: &str, output: &mut O) -> Result<(), Stop>
    ensures fails { IfErr result (λ stop. stop ≡ Stop.Unwritable) }
    ensures puts { PutsText (O.already output.old) (O.already output.new) (explanation_text name.now) result }
    ensures once { PutsOnce output.old output.new (O.failures output.old) (O.failures output.new) (O.last_failed output.new) result }
{
    let text = explanation(name).unwrap_or("");
    put_text(output, text.as_bytes())
}
