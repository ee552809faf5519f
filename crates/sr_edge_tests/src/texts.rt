use sr_sample::sample;
use sr_value::NoMemory;
use std::alloc::Global;
use std::test::Fail;

/// The sample program of seed 0.
const OF_SEED_0: &str = "resource Server
  op ask(client, n : int) returns r : int
body Server(id : int)
  var served : int := 0
  process loop
    do true ->
      in ask(client, n) returns r by client -> served++; r := n * id ni
    od
  end
end
resource main()
  import Server
  const servers := 2
  const clients := 3
  const calls := 50
  op finished(sum : int)
  var s[1:servers] : cap Server
  var total : int := 0
  var part : int
  fa i := 1 to servers -> s[i] := create Server(i) af
  process client(c := 1 to clients)
    var sum : int := 0
    fa j := 1 to calls -> sum := sum + s[(c + j) % servers + 1].ask(c, j) af
    send finished(sum)
  end
  fa i := 1 to clients -> receive finished(part); total := total + part af
  write(\"servers\", servers, \"clients\", clients, \"calls\", clients * calls, \"total\", total)
end
";

/// Whether the sample program of a seed is this text.
fn is_text(alloc: Global, seed: u32, text: &str) -> Result<bool, NoMemory> {
    Ok(sample(alloc, seed)?.as_bytes() == text.as_bytes())
}

/// Whether the sample program of a seed has these constants, and is else that of seed 0.
fn has_constants(alloc: Global, seed: u32, constants: (u32, u32, u32)) -> Result<bool, NoMemory> {
    let (servers, clients, calls) = constants;
    let wanted = format!(in alloc;
        "  const servers := {servers}\n  const clients := {clients}\n  const calls := {calls}\n"
    )?;
    let of_seed_0 = "  const servers := 2\n  const clients := 3\n  const calls := 50\n";
    match OF_SEED_0.split_once(of_seed_0) {
        None => Ok(false),
        Some((before, after)) => {
            let text = format!(in alloc; "{before}{wanted}{after}")?;
            is_text(alloc, seed, text.as_str())
        }
    }
}

#[test]
fn seed_0(rt: HostRuntime) -> Result<(), Fail> {
    assert!(rt; is_text(rt.alloc(), 0, OF_SEED_0)?);
    Ok(())
}

#[test]
fn constants_of_seeds(rt: HostRuntime) -> Result<(), Fail> {
    let rows = [
        (0, (2, 3, 50)),
        (6, (8, 3, 50)),
        (7, (2, 4, 50)),
        (76, (8, 13, 50)),
        (77, (2, 3, 51)),
        (11_549, (8, 13, 199)),
        (11_550, (2, 3, 50)),
        (4_294_967_295, (5, 3, 146)),
    ];
    for (seed, constants) in rows {
        assert!(rt; has_constants(rt.alloc(), seed, constants)?, "{seed}");
    }
    Ok(())
}
