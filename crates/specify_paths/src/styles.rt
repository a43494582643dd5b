// The pulse styles of outputs.
ghost use Rattle.std.specs.Prelude.{◌≡◌, ◌<◌, ℕ, IfOk, OnOk, flat_map, length, map, unwrap_or};
ghost use Rattle.elab_laws.specs.Handing.{all_bits};
ghost use Rattle.specify_model.specs.Faults as faults;
ghost use Rattle.specify_model.specs.Outputs as def;
ghost use Rattle.specify_values.specs.Seen.{view_style};
ghost use Rattle.specify_values.specs.Telling.{Tells};
ghost use Rattle.elab_ends.specs.Seen.{AreApart, bit_seen};
ghost use Rattle.specify_paths.specs.Words.{style_at, with_style};

use crate::terms::check_terms;
use elab_ends::terms_bits;
use elab_model::ElabKind;
use elab_variables::Table;
use indexmap::IndexMap;
use sg_delay::PulseStyle;
use sg_text::{NoMemory, Refused};
use specify_values::StyleText;
use std::alloc::Global;

/// The styles that a module's items choose for bits, by their places in the row of bits of its table.
#[derive(Drop)]
pub struct Styles {
    chosen: IndexMap<usize, PulseStyle>,
}

impl Styles {
    /// The style of a bit: on event, where no item chooses another.
    pub fn of(&self, bit: usize) -> PulseStyle
        ensures { result ≡ style_at self.now bit }
    {
        match self.chosen.get(&bit) {
            Some(style) => *style,
            None => PulseStyle::OnEvent,
        }
    }
}

fn chosen_style(style: vl_tree::PulseStyle) -> Option<PulseStyle>
    ensures { result ≡ def.chosen_style style }
{
    match style {
        vl_tree::PulseStyle::OnEvent => Some(PulseStyle::OnEvent),
        vl_tree::PulseStyle::OnDetect => Some(PulseStyle::OnDetect),
        vl_tree::PulseStyle::NoShowCancelled => None,
    }
}

fn choose(style: PulseStyle, bits: &[usize], styles: &mut Styles) -> Result<(), NoMemory>
    ensures { OnOk result ((i : ℕ) → style_at styles.new i ≡ with_style (style_at styles.old) style bits.now i) }
{
    for bit in bits {
        styles.chosen.insert(*bit, style)?;
    }
    Ok(())
}

fn add_style(
    alloc: Global,
    table: &Table,
    text: StyleText,
    styles: &mut Styles,
) -> Result<(), Refused<ElabKind>>
    requires { AreApart table.now }
    ensures styles { OnOk result ((i : ℕ) → i < length (all_bits table.now) → style_at styles.new i ≡ unwrap_or (def.names_bit table.now (bit_seen table.now i) (view_style text.entry)) (style_at styles.old i)) }
    ensures told { Tells (faults.style_faults table.now (view_style text.entry)) result }
{
    check_terms(table, text.terms)?;
    let Some(style) = chosen_style(text.style) else {
        return Ok(());
    };
    let bits = terms_bits(alloc, table, text.terms)?;
    choose(style, &bits, styles)?;
    Ok(())
}

/// The styles that items choose, of which the last for a bit holds (IEEE 1364-2005, 14.6.4). Refuses a term that isn't declared (UnknownName) or whose index is out of range
/// (BadTerminal), at the name. Takes memory in proportion to the bits.
pub fn styles_of(
    alloc: Global,
    table: &Table,
    texts: &[StyleText],
) -> Result<Styles, Refused<ElabKind>>
    requires { AreApart table.now }
    ensures styles { IfOk result (λ s. (i : ℕ) → i < length (all_bits table.now) → style_at s i ≡ def.style_of table.now (map view_style texts.now) (bit_seen table.now i)) }
    ensures told { Tells (flat_map (faults.style_faults table.now) (map view_style texts.now)) result }
{
    let mut styles = Styles {
        chosen: IndexMap::new(alloc),
    };
    for text in texts {
        add_style(alloc, table, *text, &mut styles)?;
    }
    Ok(styles)
}
