// Reading: what bit a score stands for, or that it stands for none.
#![tactic(auto)]

ghost use Rattle.std.specs.Prelude.{◌≡◌, ◌≤◌, length};
ghost use Rattle.answers.specs.Answers.{ended};
ghost use Rattle.reading.specs.Read as spec;

use answers::Refusal;

// The bit that a score stands for: 1 below zero, 0 above it, and 2, an erasure, for either zero and for NaN. Refuses
// nothing.
#[tactic(auto, unfolding(crate::specs::Read::reads))]
pub fn read(score: f32) -> u8
    ensures { result ≡ spec.reads score }
{
    if score < 0.0 {
        1
    } else if 0.0 < score {
        0
    } else {
        2
    }
}

fn read_all(scores: &[f32], bits: &mut [u8])
    requires { length scores.now ≤ length bits.old }
    ensures { bits.new ≡ spec.read_list scores.now bits.old }
{
    for (i, &score) in scores.iter().enumerate() {
        bits[i] = read(score);
    }
}

// The bits of a list of scores, one a score, 2 where a score is an erasure. Refused: 5; nothing is written then.
#[tactic(auto, unfolding(sentences::specs::Sentences::refusal, sentences::specs::Sentences::decided, crate::specs::Read::read_sentences, crate::specs::Read::read_list_of))]
pub fn read_list(scores: &[f32], bits: &mut [u8]) -> Result<(), Refusal>
    ensures { ended result bits.new ≡ spec.read_list_of scores.now bits.old }
{
    if bits.len() < scores.len() {
        return Err(Refusal::Length);
    }
    read_all(scores, bits);
    Ok(())
}
