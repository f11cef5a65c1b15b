ghost use Rattle.std.specs.Prelude.{◌≡◌, ◌↔◌, ◌<◌, ◌≤◌, ◌^◌, IsTrue, IfSome, Some, Option, ℕ, drop};
ghost use Rattle.std.specs.Prelude.{replicate};
ghost use Rattle.byteorder.specs.Endian.{big_number};
ghost use Rattle.als_epochs.specs.Histories.{IsHistory, RisesFrom};
ghost use Rattle.als_ckpt.specs.Control.{phase_byte, region_byte, control_head, history_part};
ghost use Rattle.als_ckpt.specs.Control.{control_block, version_1_block, implied_history, Spells};
ghost use Rattle.als_ckpt.specs.Control.{IsPosition, IsSeal, IsLastSeal, IsControlState};
ghost use Rattle.als_ckpt.specs.declared.phase.Phase.{Phase as AnyPhase};
ghost use Rattle.als_ckpt.specs.declared.region.Region.{Region as AnyRegion};
ghost use Rattle.als_ckpt.specs.declared.control_state.ControlState.{ControlState as AnyState};

use crate::control_state::ControlState;
use crate::phase::Phase;
use crate::region::Region;
use als_epochs::{EPOCH_LIMIT, History};
use als_record::{BLOCK_LEN, FIRST_LSN, Lsn};
use byteorder::{BigEndian, ByteOrder};

/// What a control block begins with.
static MAGIC: [u8; 8] = *b"ALSCTL01";

/// The byte of a phase.
fn byte_of_phase(phase: Phase) -> u8
    ensures { result ≡ phase_byte phase }
{
    match phase {
        Phase::Following => 1,
        Phase::Sealed => 2,
        Phase::Primary => 3,
    }
}

/// The phase that a byte stands for.
fn phase_of_byte(byte: u8) -> Option<Phase>
    ensures found { IfSome result (λ phase. byte ≡ phase_byte phase) }
    ensures only { (phase : AnyPhase) → byte ≡ phase_byte phase → result ≡ Some phase }
{
    match byte {
        1 => Some(Phase::Following),
        2 => Some(Phase::Sealed),
        3 => Some(Phase::Primary),
        _ => None,
    }
}

/// The byte of the published region, 0 for none.
fn byte_of_region(region: Option<Region>) -> u8
    ensures { result ≡ region_byte region }
{
    match region {
        None => 0,
        Some(Region::First) => 1,
        Some(Region::Second) => 2,
    }
}

/// The published region that a byte stands for.
fn region_of_byte(byte: u8) -> Option<Option<Region>>
    ensures found { IfSome result (λ region. byte ≡ region_byte region) }
    ensures only { (region : Option AnyRegion) → byte ≡ region_byte region → result ≡ Some region }
{
    match byte {
        0 => Some(None),
        1 => Some(Some(Region::First)),
        2 => Some(Some(Region::Second)),
        _ => None,
    }
}

/// Whether a checkpoint's position goes with its region and the mark.
fn is_position(state: &ControlState) -> bool
    ensures { IsTrue result ↔ IsPosition state.now.published state.now.mark.0 state.now.position.0 }
{
    match state.published {
        None => state.position.0 == 0,
        Some(_) => FIRST_LSN.0 <= state.position.0 && state.position.0 <= state.mark.0,
    }
}

/// Whether a seal goes with its phase and the mark.
fn is_seal(state: &ControlState) -> bool
    ensures { IsTrue result ↔ IsSeal state.now.phase state.now.mark.0 state.now.seal.0 }
{
    match state.phase {
        Phase::Following => state.seal.0 == 0,
        Phase::Sealed | Phase::Primary => FIRST_LSN.0 <= state.seal.0
            && state.seal.0 <= state.mark.0,
    }
}

/// Whether the last seal of the history goes with the phase and the seal.
fn is_last_seal(state: &ControlState) -> bool
    ensures { IsTrue result ↔ IsLastSeal state.now.phase state.now.history state.now.seal.0 }
{
    match state.phase {
        Phase::Following => true,
        Phase::Sealed | Phase::Primary => state.history.last().0 == state.seal.0,
    }
}

/// Whether the history is one of takeovers, and goes with the phase.
fn is_history(state: &ControlState) -> bool
    ensures { IsTrue result ↔ (RisesFrom 16 state.now.history)
        × IsLastSeal state.now.phase state.now.history state.now.seal.0 }
{
    state.history.has_lsns() && is_last_seal(state)
}

/// Whether the format admits a control state, for a log device of so many bytes.
fn is_control_state(state: &ControlState, log_bytes: u64) -> bool
    ensures { IsTrue result ↔ IsControlState log_bytes state.now }
{
    let _ = state.history.epoch();
    FIRST_LSN.0 <= state.mark.0
        && state.mark.0 <= log_bytes
        && is_position(state)
        && is_seal(state)
        && is_history(state)
}

/// The history that a block of version 1 implies.
fn implied_history(phase: Phase, seal: Lsn) -> History
    ensures { result ≡ implied_history phase seal.0 }
{
    let mut history = History::empty();
    match phase {
        Phase::Following => {}
        Phase::Sealed | Phase::Primary => history.push(seal),
    }
    history
}

/// The front of a control block, for a database of so many pages.
#[tactic(auto, unfolding(crate::specs::Control::control_head))]
fn head(version: u8, pages: u32, state: &ControlState) -> [u8; 40]
    ensures { result ≡ control_head version pages state.now }
{
    let mut head = [0; 40];
    head[..8].copy_from_slice(MAGIC.as_slice());
    head[9] = version;
    head[10] = byte_of_phase(state.phase);
    head[11] = byte_of_region(state.published);
    BigEndian::write_u32(&mut head[12..], pages);
    BigEndian::write_u64(&mut head[16..], state.mark.0);
    BigEndian::write_u64(&mut head[24..], state.position.0);
    BigEndian::write_u64(&mut head[32..], state.seal.0);
    head
}

/// Writes a history behind the front of a block of zeros.
fn write_history(out: &mut [u8], history: &History)
    requires { out.old ≡ replicate 472 0 }
    ensures { out.new ≡ history_part history.now }
{
    BigEndian::write_u32(out, history.epoch());
    let (_, seals) = out.split_at_mut(8);
    history.encode(seals);
}

/// The control block of a state, for a database of so many pages.
pub(crate) fn encode(pages: u32, state: &ControlState) -> [u8; BLOCK_LEN]
    ensures { result ≡ control_block pages state.now }
{
    let mut block = [0; BLOCK_LEN];
    let (front, rest) = block.split_at_mut(40);
    front.copy_from_slice(&head(2, pages, state));
    write_history(rest, &state.history);
    block
}

/// The same of version 1. None is written any more.
fn encode_version_1(pages: u32, state: &ControlState) -> [u8; BLOCK_LEN]
    ensures { result ≡ version_1_block pages state.now }
{
    let mut block = [0; BLOCK_LEN];
    let (front, _) = block.split_at_mut(40);
    front.copy_from_slice(&head(1, pages, state));
    block
}

/// Whether a block is the control block of a state.
fn is_block(pages: u32, state: &ControlState, block: &[u8; BLOCK_LEN]) -> bool
    ensures { IsTrue result ↔ block.now ≡ control_block pages state.now }
{
    encode(pages, state) == *block
}

/// Whether it is that of version 1.
fn is_version_1_block(pages: u32, state: &ControlState, block: &[u8; BLOCK_LEN]) -> bool
    ensures { IsTrue result ↔ block.now ≡ version_1_block pages state.now }
{
    encode_version_1(pages, state) == *block
}

/// Whether a block spells a state, of a database of so many pages.
fn spells(pages: u32, state: &ControlState, block: &[u8; BLOCK_LEN]) -> bool
    ensures { IsTrue result ↔ Spells pages state.now block.now }
{
    if is_block(pages, state, block) {
        return true;
    }
    if !is_version_1_block(pages, state, block) {
        return false;
    }
    state.history.is(&implied_history(state.phase, state.seal))
}

/// Whether a block spells a state that the format admits.
fn admits(pages: u32, log_bytes: u64, state: &ControlState, block: &[u8; BLOCK_LEN]) -> bool
    ensures { IsTrue result ↔ (Spells pages state.now block.now)
        × IsControlState log_bytes state.now }
{
    is_control_state(state, log_bytes) && spells(pages, state, block)
}

/// The number of 64 bits at a place of a block.
fn number_at(block: &[u8; BLOCK_LEN], at: usize) -> u64
    requires { at ≤ 504 }
    ensures { result ≡ big_number 8 (drop at block.now) }
{
    let (_, rest) = block.split_at(at);
    BigEndian::read_u64(rest)
}

/// The history that stands in a block, or that its version implies.
fn read_history(block: &[u8; BLOCK_LEN], phase: Phase, seal: Lsn) -> Option<History>
    ensures now { (pages : ℕ) (s : AnyState) → IsHistory s.history
        → block.now ≡ control_block pages s → result ≡ Some s.history }
    ensures before { (pages : ℕ) (s : AnyState) → block.now ≡ version_1_block pages s
        → result ≡ Some (implied_history phase seal.0) }
{
    if block[9] == 1 {
        return Some(implied_history(phase, seal));
    }
    let (_, rest) = block.split_at(40);
    let epoch = BigEndian::read_u32(rest);
    if epoch > EPOCH_LIMIT {
        return None;
    }
    let (_, seals) = rest.split_at(8);
    History::decode(epoch, seals)
}

/// The state whose fields stand in a block, whatever stands elsewhere in it.
fn read_fields(block: &[u8; BLOCK_LEN]) -> Option<ControlState>
    ensures { (pages log_bytes : ℕ) (s : AnyState) → log_bytes < 2 ^ 64 → IsControlState log_bytes s
        → Spells pages s block.now → result ≡ Some s }
{
    let phase = phase_of_byte(block[10])?;
    let published = region_of_byte(block[11])?;
    let seal = Lsn(number_at(block, 32));
    let history = read_history(block, phase, seal)?;
    Some(ControlState {
        phase,
        published,
        mark: Lsn(number_at(block, 16)),
        position: Lsn(number_at(block, 24)),
        seal,
        history,
    })
}

/// The control state that a block holds, of a database with so many pages over a log device of so
/// many bytes.
pub(crate) fn decode(block: &[u8; BLOCK_LEN], pages: u32, log_bytes: u64) -> Option<ControlState>
    ensures found { IfSome result (λ s. Spells pages s block.now × IsControlState log_bytes s) }
    ensures only { (s : AnyState) → IsControlState log_bytes s → Spells pages s block.now
        → result ≡ Some s }
{
    let state = read_fields(block)?;
    if admits(pages, log_bytes, &state, block) {
        Some(state)
    } else {
        None
    }
}
