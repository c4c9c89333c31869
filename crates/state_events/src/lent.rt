// All bytes of a state written at once. (rule 10.1)
ghost use Rattle.std.specs.Prelude.{◌≡◌};
ghost use Rattle.state_events.specs.Put.{put_state};

// A lent state of another length has no place for them and stays.
pub fn put_state(state: &mut [u8], bytes: [u8; 61])
    ensures { state.new ≡ put_state state.old bytes }
{
    if state.len() == 61 {
        state.copy_from_slice(&bytes);
    }
}
