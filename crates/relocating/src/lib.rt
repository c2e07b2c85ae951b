// The words of the relocations, written to memory: those of the entries, then those of the packed places.
#![tactic(auto)]

ghost use Rattle.std.specs.Prelude.{◌≡◌};
ghost use Rattle.rules.specs.Bytes.{le};
ghost use Rattle.rules.specs.Memory.{put_word};
ghost use Rattle.rules.specs.Relocations.{items};
ghost use Rattle.rules.specs.declared.Target.TheVariants.{Defined};
ghost use Rattle.rela_words.specs.Words.{target_word, relocated, relocated_from, Placed};

use places::START;
use rules::{Module, Target};

// The word of a packed place: the bias and what the place holds.
fn write_packed(plane: &[u8], bias: u64, place: usize, mem: &mut [u8])
    ensures { mem.new ≡ put_word mem.old place (target_word plane.now bias mem.old (Defined (le 8 mem.old place)) 0 place) }
{
    let loaded = reads::read64(mem, place);
    let t = Target::Defined(loaded);
    rela_words::put_target(plane, bias, t, 0, place, mem);
}

// The words of the packed places, after those of the entries.
fn relocate_packed(f: &[u8], m: Module, bias: u64, plane: &[u8], mem: &mut [u8])
    requires { Placed f.now m }
    ensures { mem.new ≡ relocated_from f.now m bias plane.now mem.old m.relocations.entries m.packed.places }
{
    let mut run = START;
    for _ in 0..m.packed.places {
        run = places::next_place(f, m.packed, run);
        write_packed(plane, bias, run.place as usize, mem);
    }
}

// The words of all items.
#[tactic(auto, using(rela_words::proofs::Laws::relocated_more))]
pub fn relocate(f: &[u8], m: Module, bias: u64, plane: &[u8], mem: &mut [u8])
    requires { Placed f.now m }
    ensures { mem.new ≡ relocated f.now m bias plane.now mem.old (items m) }
{
    rela_words::relocate_entries(f, m, bias, plane, mem);
    relocate_packed(f, m, bias, plane, mem);
}
