ghost use Rattle.std.specs.Prelude.{◌≡◌, []};
ghost use Rattle.gl_records.specs.Captured.{without_versions};
ghost use Rattle.gl_records.specs.Shading.{AreReadable, unit_at};
ghost use Rattle.gl_records.specs.SetupRules.{AreRulesInRange};
ghost use Rattle.draw_front.specs.Draws.{draw_state as draw_state_of, fragments_of, unit_content};

use crate::owned_textures::OwnedTextures;
use draw_primitives::DrawState;
use gl_records::FragState;
use gl_state::State;
use texture_ghosts::Lent;
use vertex_stage::Stage;

/// What the state fixes for a draw at this moment.
#[tactic(auto, unfolding(crate::specs::Draws::draw_state))]
pub fn draw_state(state: &State) -> DrawState
    ensures value { result ≡ draw_state_of state.now }
    ensures ranges { AreRulesInRange result.rules }
{
    DrawState {
        vertex: Stage::new(&state.vertex_state()),
        current: state.current(),
        flat: state.flat(),
        rules: state.setup_rules(),
    }
}

/// What happens to the fragments of a draw at this moment. A texture unit is there where texturing is on and the texture
/// that is bound is complete.
#[tactic(auto, unfolding(crate::specs::Draws::fragments_of))]
pub fn fragments(state: &State, textures: &OwnedTextures, lent: &Lent) -> FragState
    requires { lent.now ≡ [] }
    ensures value { without_versions result ≡ fragments_of state.now textures.now }
    ensures readable { AreReadable (without_versions result) (unit_content (unit_at result 0) textures.now 0) (unit_content (unit_at result 1) textures.now 1) }
{
    let first = textures.unit_image(lent, 0);
    let second = textures.unit_image(lent, 1);
    state.frag_state([first, second])
}
