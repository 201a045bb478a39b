//! Rules with types in them, their names as symbols and variables as numbers.

ghost use Rattle.std.specs.Prelude.{◌≡◌, IfOk, Some, None, true, is_some, map, option_map};
ghost use Rattle.isle_core.specs.RuleViews.{rule as elaborated_rule, pattern as elaborated_pattern};
ghost use Rattle.isle_core.specs.RuleViews.{iflet as elaborated_iflet, expr as elaborated_expr};
ghost use Rattle.isle_ast.specs.Views.{defs as seen_defs};
ghost use Rattle.isle_declarations.specs.Symbols.{index_of};
ghost use Rattle.isle_declarations.specs.Collected.{rule as seen, AreRules};
ghost use Rattle.isle_declarations.specs.Signatures.{rule_defs};
ghost use Rattle.isle_sema.specs.ElaboratedAt.{pattern_trees, condition_trees};
ghost use Rattle.isle_sema.specs.RulePass.{rule_from, written_from};
ghost use Rattle.isle_terms.specs.TermFault.{term_fault};
ghost use Rattle.isle_terms.specs.Whole.{whole, termed};
ghost use Rattle.isle_types.specs.Fault.{type_fault};
ghost use Rattle.isle_sema.specs.Known.{IsHead};
ghost use Rattle.isle_sema.specs.RulesFound.{found_rule, IsRuleFound, AreRulesFound, AreHeadsDeclared};
ghost use Rattle.isle_sema.specs.RuleRows.{declared_multis};
ghost use Rattle.isle_sema.specs.Templates.{templates as written};
ghost use Rattle.isle_templates.specs.Multi.{AreMultisTold};
ghost use Rattle.isle_templates.specs.Whole.{AreWhole};

use crate::fault::Fault;
use crate::known::{Called, Known};
use crate::rows::lowest_row;
use crate::sides::sides_of;
use crate::templates::Extractors;
use isle_core::{Expr, IfLet, List, Pattern, Rule, RuleId};
use isle_declarations::RuleDef;
use isle_templates::elaborated;
use isle_terms::{Breach, rule_culprit};
use isle_types::Row;
use std::alloc::{AllocError, Global};

// The rule of that number, of this term with these parts.
fn rule_from(
    known: &Known,
    own: &Called,
    number: usize,
    given: &RuleDef,
    args: Vec<Pattern>,
    iflets: Vec<IfLet>,
    rhs: Expr,
) -> Rule
    ensures { elaborated_rule result
        ≡ rule_from (whole known.now) number (seen given.now) own.now.term
        (map elaborated_pattern args.items) (map elaborated_iflet iflets.items)
        (elaborated_expr rhs) }
{
    let name = match given.name {
        Some(name) => Some(known.sym(name)),
        None => None,
    };
    Rule {
        id: RuleId(number),
        root_term: own.term,
        args: List::new(args),
        iflets: List::new(iflets),
        rhs,
        prio: given.prio,
        pos: given.pos,
        name,
    }
}

// The rule of that number, of this term with these parts, if each has a tree.
fn written_from(
    known: &Known,
    own: &Called,
    number: usize,
    given: &RuleDef,
    args: Option<Vec<Pattern>>,
    iflets: Option<Vec<IfLet>>,
    rhs: Option<Expr>,
) -> Option<Rule>
    ensures { option_map elaborated_rule result
        ≡ written_from (whole known.now) number (seen given.now) own.now.term (pattern_trees args)
        (condition_trees iflets) (option_map elaborated_expr rhs) }
{
    let args = args?;
    let iflets = iflets?;
    let rhs = rhs?;
    Some(rule_from(known, own, number, given, args, iflets, rhs))
}

// An elaborated rule, unless it has too many nodes.
fn found_rule<'b, 'd>(elaborated: Option<Rule>) -> Result<Rule, Breach<'b, 'd>>
    ensures { result ≡ found_rule elaborated }
{
    match elaborated {
        None => Err(Breach {
            row: Row::ManyNodes,
            culprit: None,
        }),
        Some(rule) => Ok(rule),
    }
}

// The rule of that number, of this term, with its templates replaced; or the row that it breaks.
fn rule_of<'b, 'd>(
    alloc: Global,
    known: &Known,
    extractors: &Extractors,
    own: &Called,
    number: usize,
    given: &RuleDef<'b, 'd>,
) -> Result<Result<Rule, Breach<'b, 'd>>, AllocError>
    requires own { IsHead (whole known.now) given.now.term.now own.now }
    requires types { type_fault (seen_defs known.now) ≡ None }
    requires terms { term_fault (whole known.now) ≡ None }
    requires templates { AreWhole (written (whole known.now)) extractors.now.templates }
    requires multis { AreMultisTold (written (whole known.now)) (declared_multis (whole known.now))
        extractors.now.multis.items }
    ensures { IfOk result (λ found. IsRuleFound (whole known.now) number (seen given.now) found) }
{
    let sides = sides_of(alloc, known, extractors.multis.as_slice(), own, given)?;
    let args = sides.args;
    let iflets = sides.iflets;
    let rhs = sides.rhs;
    let count = given.args.len();
    if let Some(row) = lowest_row(own, count, &sides.left.rows, &sides.right.rows) {
        let culprit = rule_culprit(
            row,
            own.args.len(),
            given.term,
            count,
            &sides.left.first,
            &sides.right.first,
        );
        return Ok(Err(Breach { row, culprit }));
    }
    let Some(written) = written_from(known, own, number, given, args, iflets, rhs) else {
        unreachable!();
    };
    let found = elaborated(alloc, &extractors.templates, written)?;
    Ok(found_rule(found))
}

// The same of a rule whose term is declared.
fn rule_at<'b, 'd>(
    alloc: Global,
    known: &Known,
    extractors: &Extractors,
    number: usize,
    given: &RuleDef<'b, 'd>,
) -> Result<Result<Rule, Breach<'b, 'd>>, AllocError>
    requires number { index_of (whole known.now).types.syms given.now.term.now
        ≡ Some given.now.number }
    requires declared { is_some (termed (whole known.now) given.now.term.now) ≡ true }
    requires types { type_fault (seen_defs known.now) ≡ None }
    requires terms { term_fault (whole known.now) ≡ None }
    requires templates { AreWhole (written (whole known.now)) extractors.now.templates }
    requires multis { AreMultisTold (written (whole known.now)) (declared_multis (whole known.now))
        extractors.now.multis.items }
    ensures { IfOk result (λ found. IsRuleFound (whole known.now) number (seen given.now) found) }
{
    match known.at(given.number) {
        Some(own) => rule_of(alloc, known, extractors, &own, number, given),
        None => Ok(Err(Breach {
            row: Row::HeadMisfit,
            culprit: None,
        })),
    }
}

/// Returns the rules, numbered in order; or else the first that breaks a row, with the lowest such row. The only error
/// is want of memory.
pub fn rules_at<'b, 'd>(
    alloc: Global,
    known: &Known<'_, 'b, 'd>,
    extractors: &Extractors,
    given: &[RuleDef<'b, 'd>],
) -> Result<Result<Vec<Rule>, Fault<'b, 'd>>, AllocError>
    requires rules { AreRules (seen_defs known.now) given.now }
    requires declared { AreHeadsDeclared (whole known.now) }
    requires types { type_fault (seen_defs known.now) ≡ None }
    requires terms { term_fault (whole known.now) ≡ None }
    requires templates { AreWhole (written (whole known.now)) extractors.now.templates }
    requires multis { AreMultisTold (written (whole known.now)) (declared_multis (whole known.now))
        extractors.now.multis.items }
    ensures { IfOk result (λ found.
        AreRulesFound (whole known.now) (rule_defs (seen_defs known.now)) found) }
{
    let mut rules = Vec::with_capacity(alloc, given.len())?;
    for (number, rule) in given.iter().enumerate() {
        match rule_at(alloc, known, extractors, number, rule)? {
            Ok(found) => rules.push(found)?,
            Err(breach) => {
                return Ok(Err(Fault {
                    row: breach.row,
                    pos: rule.pos,
                    term: rule.term,
                    culprit: breach.culprit,
                }));
            }
        }
    }
    Ok(Ok(rules))
}
