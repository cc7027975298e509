// A group that goes on try by try, as expressions see it.
ghost use Rattle.std.specs.Prelude.{◌≡◌, length};
ghost use Rattle.group_record.specs.Live.{live_count, live_states};

use group_record::LiveGroup;
use group_state::signed_global;
use watch_expr::View;

/// The processes of a group as they are now, each of which is there.
#[derive(Clone, Copy)]
pub(crate) struct SeenGroup<'a, 'm> {
    pub(crate) live: &'a LiveGroup<'m>,
    ghost whole: { length (live_states live.now) ≡ live_count live.now },
}

impl<'a, 'm> View for SeenGroup<'a, 'm> {
    ghost use Rattle.play_command.specs.inside.Shown.{nodes_of_live};

    ghost nodes = { λ seen. nodes_of_live seen.live.now };

    #[tactic(auto, using(crate::proofs::SeenNodes::nodes_length))]
    fn node_count(&self) -> u32 {
        self.live.count()
    }

    fn lent(&self, node: u32, addr: u64, len: u64) -> Option<&[u8]> {
        self.live.process(node).memory().lent(addr, len)
    }

    fn global(&self, node: u32, n: u32) -> Option<i64> {
        Some(signed_global(self.live.process(node).global(n)?))
    }

    fn clock(&self, node: u32) -> i64 {
        let process = self.live.process(node);
        let _ = process.events();
        process.clock() as i64
    }

    fn events(&self, node: u32) -> i64 {
        self.live.process(node).events() as i64
    }

    fn last_thread(&self, node: u32) -> Option<i64> {
        Some(i64::from(self.live.process(node).last_thread()?))
    }

    fn has_ended(&self, node: u32) -> bool {
        self.live.process(node).has_ended()
    }

    fn pages(&self, node: u32) -> u32 {
        self.live.process(node).memory().size()
    }
}
