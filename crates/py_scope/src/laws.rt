//! Laws of the definitions. The bodies do nothing.
ghost use Rattle.py_scope.specs.Answered.{ClosureResolves, PassingClassResolves, WalrusInFunctionResolves, WalrusInModuleResolves, ClassWithoutUseResolves, ClassWithGlobalResolves, SharedNameResolves, NonlocalWalrusResolves, GlobalWalrusResolves, NestedWalrusResolves};
ghost use Rattle.py_scope.specs.Worked.{ClosureShown, PassingClassShown, WalrusInFunctionShown, WalrusInModuleShown, GlobalParameterRefused, IteratedWalrusRefused, UnboundNonlocalRefused, ModuleNonlocalRefused};

/// The scopes of small programs resolve as they are written here, and programs that Python refuses are refused.
pub fn worked_programs()
    ensures closure { ClosureShown }
    ensures passing_class { PassingClassShown }
    ensures walrus_in_function { WalrusInFunctionShown }
    ensures walrus_in_module { WalrusInModuleShown }
    ensures global_parameter { GlobalParameterRefused }
    ensures iterated_walrus { IteratedWalrusRefused }
    ensures unbound_nonlocal { UnboundNonlocalRefused }
    ensures module_nonlocal { ModuleNonlocalRefused }
{}

/// The names of small programs resolve as it is written here.
pub fn worked_answers()
    ensures closure { ClosureResolves }
    ensures passing_class { PassingClassResolves }
    ensures walrus_in_function { WalrusInFunctionResolves }
    ensures walrus_in_module { WalrusInModuleResolves }
    ensures class_without_use { ClassWithoutUseResolves }
    ensures class_with_global { ClassWithGlobalResolves }
    ensures shared_name { SharedNameResolves }
    ensures nonlocal_walrus { NonlocalWalrusResolves }
    ensures global_walrus { GlobalWalrusResolves }
    ensures walrus_nested { NestedWalrusResolves }
{}
