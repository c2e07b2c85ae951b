// Examines an image from standard input, and writes its globals or the refusal.
#![tactic(auto)]

ghost use Rattle.std.specs.Prelude.{◌≡◌, Err};
ghost use Rattle.rules.specs.Answers.{of_result};
ghost use Rattle.examine_image.specs.Image.{image_answer};

use rules::{Facts, Reason, Refusal};
use std::io;

// Bytes of the longest image.
const IMAGE_LIMIT: usize = 65536;

// Bytes that are read: one more tells longer input.
const READ_LIMIT: usize = 65537;

// Longer input is refused; an image is examined.
#[tactic(auto, unfolding(crate::specs::Image::image_answer))]
fn answer_image(f: &[u8]) -> Result<Facts, Refusal>
    ensures { of_result result ≡ image_answer f.now }
{
    if IMAGE_LIMIT < f.len() {
        return Err(Reason::Length.at(0));
    }
    examine::examine_file(f)
}

// Written is the refusal of the input.
fn print_refusal(rt: &impl Print, f: &[u8], r: Refusal) -> io::Result<()>
    requires { image_answer f.now ≡ of_result (Err r) }
{
    println!(rt; "{r}")
}

fn print_answer(rt: &impl Print, f: &[u8]) -> io::Result<()> {
    match answer_image(f) {
        Ok(_) => printing::print_module(rt, f),
        Err(r) => print_refusal(rt, f, r),
    }
}

fn main(rt: HostRuntime) -> io::Result<()> {
    let mut image = [0u8; READ_LIMIT];
    let n = printing::read_full(&mut rt.stdin(), &mut image)?;
    print_answer(&rt, &image[..n])
}
