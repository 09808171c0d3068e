//! The text of a network that adds two numbers, which is made for so many bits.

ghost use Rattle.std.specs.Prelude.{◌≡◌, ◌*◌, ◌<◌, ◌≤◌, ◌++◌, length, OnOk, IfOk, string_bytes};
ghost use Rattle.std.specs.List.{flat_map, range_with_len};
ghost use Rattle.edge_bits.specs.declared.limits.TheConstants.{MOST_BITS};
ghost use Rattle.cover_nets.specs.declared.net.Net.{Net};
ghost use Rattle.blif_net.specs.Networks.{IsBlifText};
ghost use Rattle.blif_net.specs.GenTexts.{bit_covers, carry_cover, complement_cover, gen_text, inputs_below, outputs_of, sum_cover, zeros_cover};

use edge_bits::Memory;
use std::alloc::{AllocError, Global};

/// The names of the inputs: the bits of two numbers, from the highest on.
fn put_inputs(text: &mut String, bits: u32) -> Result<(), AllocError>
    ensures { OnOk result (string_bytes text.new ≡ string_bytes text.old ++ inputs_below bits) }
{
    for bit in (0..bits).rev() {
        write!(text, " a{bit} b{bit}")?;
    }
    Ok(())
}

/// The names of the outputs but for the last carry.
fn put_outputs(text: &mut String, bits: u32) -> Result<(), AllocError>
    ensures { OnOk result (string_bytes text.new ≡ string_bytes text.old ++ flat_map outputs_of (range_with_len 0 bits)) }
{
    for bit in 0..bits {
        write!(text, " s{bit} d{bit} n{bit}")?;
    }
    Ok(())
}

/// The sum of a bit of both numbers and its carry, by its ones.
#[tactic(auto, unfolding(crate::specs::GenTexts::sum_cover))]
fn put_sum(text: &mut String, bit: u32) -> Result<(), AllocError>
    ensures { OnOk result (string_bytes text.new ≡ string_bytes text.old ++ sum_cover bit) }
{
    write!(
        text,
        ".names a{bit} b{bit} c{bit} s{bit}\n001 1\n010 1\n100 1\n111 1\n"
    )
}

/// The same sum, by its zeros.
#[tactic(auto, unfolding(crate::specs::GenTexts::zeros_cover))]
fn put_zeros(text: &mut String, bit: u32) -> Result<(), AllocError>
    ensures { OnOk result (string_bytes text.new ≡ string_bytes text.old ++ zeros_cover bit) }
{
    write!(
        text,
        ".names a{bit} b{bit} c{bit} d{bit}\n000 0\n011 0\n101 0\n110 0\n"
    )
}

/// Its complement.
#[tactic(auto, unfolding(crate::specs::GenTexts::complement_cover))]
fn put_complement(text: &mut String, bit: u32) -> Result<(), AllocError>
    ensures { OnOk result (string_bytes text.new ≡ string_bytes text.old ++ complement_cover bit) }
{
    write!(text, ".names s{bit} n{bit}\n0 1\n")
}

/// The carry of the next bit.
#[tactic(auto, unfolding(crate::specs::GenTexts::carry_cover))]
fn put_carry(text: &mut String, bit: u32) -> Result<(), AllocError>
    requires { bit < u32.MAX }
    ensures { OnOk result (string_bytes text.new ≡ string_bytes text.old ++ carry_cover bit) }
{
    write!(
        text,
        ".names a{bit} b{bit} c{bit} c{}\n11- 1\n1-1 1\n-11 1\n",
        bit + 1
    )
}

/// The covers of a bit.
fn put_covers(text: &mut String, bit: u32) -> Result<(), AllocError>
    requires { bit < u32.MAX }
    ensures { OnOk result (string_bytes text.new ≡ string_bytes text.old ++ bit_covers bit) }
{
    put_sum(text, bit)?;
    put_zeros(text, bit)?;
    put_complement(text, bit)?;
    put_carry(text, bit)
}

/// The text of the network that adds two numbers of so many bits: of each bit the sum, by its ones and by its zeros, and its
/// complement, and the last carry. Up to the greatest number of bits it is the text of a network, with two inputs a bit.
#[tactic(auto, unfolding(crate::specs::GenTexts::gen_text))]
pub fn gen_text(alloc: Global, bits: u32) -> Result<Vec<u8>, Memory>
    ensures text { IfOk result (λ text. text.items ≡ gen_text bits) }
    ensures network { bits ≤ MOST_BITS → IfOk result (λ text. (net : Net) × IsBlifText text.items net × (length net.inputs ≡ 2 * bits)) }
{
    let mut text = String::from_str(alloc, ".model gen\n.inputs")?;
    put_inputs(&mut text, bits)?;
    text.push_str("\n.outputs")?;
    put_outputs(&mut text, bits)?;
    write!(text, " c{bits}\n.names c0\n")?;
    for bit in 0..bits {
        put_covers(&mut text, bit)?;
    }
    text.push_str(".end\n")?;
    Ok(text.into_bytes())
}
