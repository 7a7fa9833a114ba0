ghost use Rattle.std.specs.Prelude.{◌≡◌, None, Some, is_some, if◌then◌else◌, map, IfOk, IfSome, IfNone, OnOk};
ghost use Rattle.meta_gen.specs.Reply.{AllowedReply};
ghost use Rattle.meta_verify.specs.Defined.{environment_of, AreTypeNumbers};
ghost use Rattle.meta_verify.specs.Numbers.{applied, stated, HasNumbers, HasTypeNumbers};
ghost use Rattle.meta_verify.specs.Statement as spec;
ghost use Rattle.meta_verify.specs.declared.reason.Reason.TheVariants.{Redefined};
ghost use Rattle.meta_verify.specs.Wrong.{IsMistake, IsFaultless};

use super::defined::{defined_before, look_up, redefined};
use super::known::KnownTypes;
use super::lists::Lists;
use super::reason::Reason;
use super::statement::{Application, Statement, TypedNumber};
use meta_gen::Tables;
use std::alloc::{AllocError, Global};

/// Puts the numbers of the types of the results into the list, in place of what it had.
pub(crate) fn put_numbers(results: &[TypedNumber], numbers: &mut Vec<u16>) -> Result<(), AllocError>
    ensures { OnOk result (numbers.new.items ≡ map (λ r. r.number) results.now) }
{
    numbers.clear();
    for r in results {
        numbers.push(r.number)?;
    }
    Ok(())
}

/// Why a parameter is wrong: it is defined before.
fn mistake_of_parameter(types: &KnownTypes, parameter: &TypedNumber) -> Option<Reason>
    ensures { result ≡ (if is_some (environment_of types.now parameter.now.value) then Some (Redefined parameter.now.value) else None) }
{
    let value = defined_before(types, parameter.value)?;
    Some(Reason::Redefined(value))
}

/// Why the application is wrong, by the tables. It is `None` exactly if it is right.
fn mistake_of_application(
    alloc: Global,
    types: &KnownTypes,
    tables: &Tables,
    application: &Application<'_>,
    lists: &mut Lists,
) -> Result<Option<Reason>, AllocError>
    requires known { AreTypeNumbers types.now }
    requires numbers { HasNumbers application.now }
    ensures mistake { IfOk result (λ o. IfSome o (λ reason.
        IsMistake (AllowedReply tables.now.opcodes) (environment_of types.now) (spec.OfApplication (applied application.now)) reason)) }
    ensures none { IfOk result (λ o. IfNone o
        (IsFaultless (AllowedReply tables.now.opcodes) (environment_of types.now) (spec.OfApplication (applied application.now)))) }
{
    let Some(opcode) = tables.find_opcode(application.name) else {
        return Ok(Some(Reason::Unknown));
    };
    if let Some(value) = look_up(types, &application.values, &mut lists.value_numbers)? {
        return Ok(Some(Reason::Undefined(value)));
    }
    if let Some(value) = redefined(alloc, types, &application.results)? {
        return Ok(Some(Reason::Redefined(value)));
    }
    put_numbers(&application.results, &mut lists.result_numbers)?;
    if !tables.accepts2(
        opcode,
        application.control,
        application.second,
        &lists.result_numbers,
        &lists.value_numbers,
    ) {
        return Ok(Some(Reason::Refused));
    }
    Ok(None)
}

/// Why what is stated is wrong, by the tables. It is `None` exactly if it is right.
pub(crate) fn mistake_of(
    alloc: Global,
    types: &KnownTypes,
    tables: &Tables,
    statement: &Statement<'_>,
    lists: &mut Lists,
) -> Result<Option<Reason>, AllocError>
    requires known { AreTypeNumbers types.now }
    requires numbers { HasTypeNumbers statement.now }
    ensures mistake { IfOk result (λ o. IfSome o (λ reason.
        IsMistake (AllowedReply tables.now.opcodes) (environment_of types.now) (stated statement.now) reason)) }
    ensures none { IfOk result (λ o. IfNone o
        (IsFaultless (AllowedReply tables.now.opcodes) (environment_of types.now) (stated statement.now))) }
{
    match statement {
        Statement::Parameter(parameter) => Ok(mistake_of_parameter(types, parameter)),
        Statement::Applied(application) => {
            mistake_of_application(alloc, types, tables, application, lists)
        }
    }
}
