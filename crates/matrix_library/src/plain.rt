ghost use Rattle.quad_matrix.specs.Matrices.{matrices};
ghost use Rattle.cht_plain.specs.Alone.{seen_of};

use crate::library::MatLib;
use cht_engine::Engine;
use cht_ids::{Id, Memory, Ref};
use cht_plain::PlainEngine;
use quad_matrix::{MatChunk, MatKind};
use task_types::Shared;

/// The engine on one thread is an engine, for matrices.
impl Engine<MatLib> for PlainEngine<MatLib> {
    type Context = ();

    ghost seen = { seen_of matrices };

    fn register(
        &mut self,
        _ctx: &mut (),
        content: MatChunk,
        children: &[Ref],
    ) -> Result<Id, Memory> {
        self.register(content, children)
    }

    fn copy(&mut self, _ctx: &mut (), r: Ref) -> Result<Ref, Memory> {
        self.copy(r)
    }

    fn delete(&mut self, _ctx: &mut (), r: Ref) {
        self.delete(r);
    }

    fn look(
        &mut self,
        _ctx: &mut (),
        id: Id,
        path: &[u8],
    ) -> Result<Option<Shared<MatChunk>>, Memory> {
        PlainEngine::look(self, id, path)
    }

    fn ask(&mut self, _ctx: &mut (), kind: MatKind, inputs: &[Ref]) -> Result<Ref, Memory> {
        self.ask(kind, inputs)
    }
}
