//! The sample program that the program `sr` makes of a seed.
#![tactic(auto)]

ghost use Rattle.std.specs.Prelude.{◌≡◌, ◌++◌, IfOk, OnOk};
ghost use Rattle.sr_sample.specs.Sample as defined;

use sr_value::{NoMemory, Text};
use std::alloc::Global;

/// The lines before the constants.
const BEFORE: &str = "resource Server
  op ask(client, n : int) returns r : int
body Server(id : int)
  var served : int := 0
  process loop
    do true ->
      in ask(client, n) returns r by client -> served++; r := n * id ni
    od
  end
end
resource main()
  import Server
";

/// The lines after the constants.
const AFTER: &str = "  op finished(sum : int)
  var s[1:servers] : cap Server
  var total : int := 0
  var part : int
  fa i := 1 to servers -> s[i] := create Server(i) af
  process client(c := 1 to clients)
    var sum : int := 0
    fa j := 1 to calls -> sum := sum + s[(c + j) % servers + 1].ask(c, j) af
    send finished(sum)
  end
  fa i := 1 to clients -> receive finished(part); total := total + part af
  write(\"servers\", servers, \"clients\", clients, \"calls\", clients * calls, \"total\", total)
end
";

/// The sample program of a seed: clients call servers, and the total of the answers is the same in every run.
pub fn sample(alloc: Global, seed: u32) -> Result<Text, NoMemory>
    ensures { IfOk result (λ text. text ≡ defined.sample_text seed) }
{
    let mut text = Text::from_slice(alloc, BEFORE.as_bytes())?;
    add_constant(alloc, &mut text, "servers", 2 + seed % 7)?;
    add_constant(alloc, &mut text, "clients", 3 + seed / 7 % 11)?;
    add_constant(alloc, &mut text, "calls", 50 + seed / 77 % 150)?;
    text.push_all(AFTER.as_bytes())?;
    Ok(text)
}

/// Adds the line that declares a constant.
fn add_constant(alloc: Global, text: &mut Text, name: &str, number: u32) -> Result<(), NoMemory>
    ensures { OnOk result (text.new ≡ text.old ++ defined.line_text (defined.constant_line name.now number)) }
{
    let line = format!(in alloc; "  const {name} := {number}\n")?;
    text.push_all(line.as_bytes())
}
