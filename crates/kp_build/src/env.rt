// The environment of an expression: names with their nodes, and functions.
ghost use Rattle.std.specs.Prelude.{◌≡◌, ℕ, List, Some, [], map, length, true, is_some, IfOk, OnOk, OnErr};
ghost use Rattle.std.specs.List.{zip};
ghost use Rattle.kp_build.specs.Names.{node_of, with_node};

use indexmap::IndexMap;
use kp_ast::{Decl, Name, Param};
use kp_base::NoMemory;
use kp_net::NodeId;
use kp_stage::Design;
use std::alloc::Global;
use std::marker::Model;

/// Names with their nodes, and the functions that expressions may call.
pub struct Env<'a> {
    decls: &'a [Decl],
    names: IndexMap<Name, NodeId>,
}

impl Drop for Env<'_> {
    fn drop(self) {
        let Env { decls: _, names } = self;
        drop(names);
    }
}

impl<'a> Model for Env<'a> {
    ghost use Rattle.std.specs.Coded.{codes};
    ghost use Rattle.kp_ast.specs.contracts.tree.ExprKind as e;
    ghost use Rattle.kp_build.specs.Names.{Scope};

    ghost Value = { Scope };

    ghost coded = { Prim.hlevel (codes, e.the_row.coded) };

    ghost view = { λ e. record { decls = e.decls.now; names = e.names.entries } };
}

impl<'a> Env<'a> {
    /// The environment with the functions of a design, and no names. Error: out of memory.
    pub fn new(alloc: Global, d: &'a Design) -> Result<Env<'a>, NoMemory>
        ensures { IfOk result (λ env. env ≡ record { decls = d.now.job.decls; names = [] }) }
    {
        Ok(Env {
            decls: d.job().decls.as_slice(),
            names: IndexMap::new(alloc),
        })
    }

    /// The environment of a call of a function: the parameters, each with the node of the corresponding argument, and
    /// the functions that are declared earlier.
    pub(crate) fn of_call(
        alloc: Global,
        earlier: &'a [Decl],
        params: &[Param],
        args: &[NodeId],
    ) -> Result<Env<'a>, NoMemory>
        requires { length params.now ≡ length args.now }
        ensures decls { IfOk result (λ env. env.decls ≡ earlier.now) }
        ensures names { IfOk result (λ env. (q : List ℕ) → node_of env.names q ≡ node_of (zip (map (λ p. p.name.name) params.now) args.now) q) }
    {
        let mut env = Env {
            decls: earlier,
            names: IndexMap::new(alloc),
        };
        // The last parameter comes first, so that the first parameter with a name takes precedence.
        for i in (0..params.len()).rev() {
            env.bind(&params[i].name.name, args[i])?;
        }
        Ok(env)
    }

    /// Binds a name to this node, also if it is bound already. On an error nothing is changed.
    pub fn bind(&mut self, name: &Name, node: NodeId) -> Result<(), NoMemory>
        ensures bound { OnOk result (self.new ≡ record { decls = self.old.decls; names = with_node self.old.names name.now node }) }
        ensures unchanged { OnErr result (self.new ≡ self.old) }
    {
        self.names.insert(name.clone()?, node)?;
        Ok(())
    }

    /// The node of a name, if it has one.
    pub fn node(&self, name: &Name) -> Option<NodeId>
        ensures { result ≡ node_of self.now.names name.now }
    {
        self.names.get(name).copied()
    }

    /// The node of a name that has one.
    pub(crate) fn named(&self, name: &Name) -> NodeId
        requires { is_some (node_of self.now.names name.now) ≡ true }
        ensures { node_of self.now.names name.now ≡ Some result }
    {
        match self.node(name) {
            Some(node) => node,
            None => unreachable!(),
        }
    }

    /// The declarations, of which the functions can be called.
    pub(crate) fn decls(&self) -> &[Decl]
        ensures { result.now ≡ self.now.decls }
    {
        self.decls
    }
}
