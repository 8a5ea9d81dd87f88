// A small interface and its names, and names and their first failures, evaluated on the definitions themselves.

ghost use Rattle.std.specs.Prelude.{◌≡◌, ◌∷◌, ◌++◌, [], None, Some, codes, replicate};
ghost use Rattle.kernel_terms.specs.Limits.{most_channels};
ghost use Rattle.sj_ast.specs.declared.port.Direction.TheVariants.{Input, Output};
ghost use Rattle.java_values.specs.declared.kind.Kind.TheVariants as kind;
ghost use Rattle.kernel_terms.specs.declared.tables.Combine.TheVariants as combine;
ghost use Rattle.kernel_terms.specs.declared.tables.Sort.TheVariants as sort_is;
ghost use Rattle.sj_ast.specs.declared.port.CombineOperator.TheVariants as operator;
ghost use Rattle.sj_names.specs.declared.mention.NameSort.TheVariants as sort;
ghost use Rattle.sj_names.specs.definitions.DeclaredTables.{combine_of, port_signals, port_channels};
ghost use Rattle.sj_names.specs.declared.mention.Role.TheVariants as role;
ghost use Rattle.sj_names.specs.declared.failure.FailureKind.TheVariants as fault;
ghost use Rattle.sj_names.specs.definitions.Failures.{failure_at, least_of, limit_failures, owned_places, too_many};
ghost use Rattle.sj_names.specs.NameRows.{names_of, names, unknown, known, port_at, channel_at, first_failure_of, input, output, channel, emits, sends, receives, looks_at, pure_signal, int_channel};

/// The names of an interface, each with what it stands for.
pub fn small_interfaces()
    ensures { names_of (port_at Input (codes "A") 1 ∷ channel_at (codes "C") 2 ∷
        port_at Output (codes "B") 3 ∷ port_at Output (codes "A") 4 ∷ []) [] ≡
        names (input 1 ∷ channel 2 ∷ output 3 ∷ known 4 (role.Declare sort.Output) sort.Input 0 ∷
        []) [] [] }
{}

/// Names with a failure of each kind, and the first failure; and names with none.
pub fn small_name_failures()
    ensures none { first_failure_of (output 1 ∷ []) ((emits 5 0 ∷ emits 6 0 ∷ []) ∷ []) (3 ∷
        []) ≡ None }
    ensures each_role { first_failure_of [] ((unknown 4 (role.Declare sort.Local) ∷
        known 5 role.Emit sort.Local 0 ∷ known 6 role.Test sort.Local 0 ∷
        known 7 role.Status sort.Local 0 ∷ unknown 8 (role.Declare sort.Variable) ∷
        known 9 role.Variable sort.Variable 0 ∷ unknown 10 (role.Declare sort.Trap) ∷
        known 11 role.Exit sort.Trap 0 ∷ []) ∷ []) (3 ∷ []) ≡ None }
    ensures unknown { first_failure_of [] ((unknown 5 role.Emit ∷ []) ∷ []) (3 ∷ []) ≡
        Some (failure_at fault.Unknown 5) }
    ensures emitted_trap { first_failure_of [] ((known 6 role.Emit sort.Trap 0 ∷ []) ∷ []) (3 ∷
        []) ≡
        Some (failure_at fault.Unknown 6) }
    ensures assigned_signal { first_failure_of [] ((known 6 role.Variable sort.Local 0 ∷ []) ∷
        []) (3 ∷
        []) ≡ Some (failure_at fault.Unknown 6) }
    ensures tested_channel { first_failure_of [] ((known 6 role.Test sort.Channel 0 ∷ []) ∷ [])
        (3 ∷ []) ≡
        Some (failure_at fault.Unknown 6) }
    ensures sent_signal { first_failure_of [] ((known 6 role.Send sort.Local 0 ∷ []) ∷ []) (3 ∷
        []) ≡
        Some (failure_at fault.Unknown 6) }
    ensures status_of_a_variable { first_failure_of [] ((known 6 role.Status sort.Variable 0 ∷ []) ∷
        []) (3 ∷ []) ≡ Some (failure_at fault.Unknown 6) }
    ensures exit_of_a_signal { first_failure_of [] ((known 6 role.Exit sort.Local 0 ∷ []) ∷ [])
        (3 ∷ []) ≡
        Some (failure_at fault.Unknown 6) }
    ensures twice { first_failure_of (input 1 ∷ known 2 (role.Declare sort.Output) sort.Input 0 ∷
        []) ([] ∷
        []) (3 ∷ []) ≡ Some (failure_at fault.Twice 2) }
    ensures shared { first_failure_of (output 1 ∷ []) ((emits 5 0 ∷ []) ∷
        (known 9 role.Test sort.Output 0 ∷ []) ∷ []) (3 ∷ 7 ∷ []) ≡
        Some (failure_at fault.SignalShared 9) }
    ensures one_each { first_failure_of (output 1 ∷ output 2 ∷ []) ((emits 5 0 ∷ []) ∷
        (emits 9 1 ∷ []) ∷
        []) (3 ∷ 7 ∷ []) ≡ None }
    ensures shared_before_emitted { first_failure_of (input 1 ∷ [])
        ((known 5 role.Test sort.Input 0 ∷ []) ∷
        (known 9 role.Emit sort.Input 0 ∷ []) ∷ []) (3 ∷ 7 ∷ []) ≡
        Some (failure_at fault.SignalShared 9) }
    ensures emitted_input { first_failure_of (input 1 ∷ []) ((known 5 role.Emit sort.Input 0 ∷ []) ∷
        []) (3 ∷ []) ≡ Some (failure_at fault.EmitInput 5) }
    ensures joined { first_failure_of (channel 1 ∷ []) ((sends 5 0 ∷ sends 6 0 ∷ []) ∷
        (receives 8 0 ∷ looks_at 9 0 ∷ []) ∷ []) (3 ∷ 7 ∷ []) ≡ None }
    ensures no_send { first_failure_of (channel 1 ∷ []) ((receives 5 0 ∷ []) ∷ []) (3 ∷ []) ≡
        Some (failure_at fault.ChannelEnds 1) }
    ensures no_receive { first_failure_of (channel 1 ∷ []) ((sends 5 0 ∷ []) ∷ (looks_at 9 0 ∷ []) ∷
        []) (3 ∷ 7 ∷ []) ≡ Some (failure_at fault.ChannelEnds 1) }
    ensures second_channel { first_failure_of (channel 1 ∷ channel 2 ∷ []) ((sends 5 0 ∷
        sends 6 1 ∷ []) ∷
        (receives 8 0 ∷ []) ∷ []) (3 ∷ 7 ∷ []) ≡ Some (failure_at fault.ChannelEnds 2) }
    ensures send_then_receive { first_failure_of (channel 1 ∷ []) ((sends 5 0 ∷ receives 6 0 ∷ []) ∷
        []) (3 ∷ []) ≡ Some (failure_at fault.ChannelEnds 6) }
    ensures receive_then_send { first_failure_of (channel 1 ∷ []) ((receives 5 0 ∷ sends 6 0 ∷ []) ∷
        []) (3 ∷ []) ≡ Some (failure_at fault.ChannelEnds 6) }
    ensures second_sender { first_failure_of (channel 1 ∷ []) ((sends 5 0 ∷ []) ∷ (sends 7 0 ∷ []) ∷
        (receives 9 0 ∷ []) ∷ []) (3 ∷ 6 ∷ 8 ∷ []) ≡ Some (failure_at fault.ChannelEnds 7) }
    ensures second_receiver { first_failure_of (channel 1 ∷ []) ((looks_at 5 0 ∷ []) ∷
        (receives 7 0 ∷ []) ∷
        (sends 9 0 ∷ []) ∷ []) (3 ∷ 6 ∷ 8 ∷ []) ≡ Some (failure_at fault.ChannelEnds 7) }
    ensures lesser_place { first_failure_of (channel 1 ∷ []) ((unknown 5 role.Emit ∷ []) ∷ [])
        (3 ∷ []) ≡
        Some (failure_at fault.ChannelEnds 1) }
    ensures too_many_domains { first_failure_of [] (replicate 17 []) (1 ∷ 2 ∷ 3 ∷ 4 ∷ 5 ∷ 6 ∷ 7 ∷
        8 ∷ 9 ∷
        10 ∷ 11 ∷ 12 ∷ 13 ∷ 14 ∷ 15 ∷ 16 ∷ 17 ∷ []) ≡ Some (failure_at fault.TooMany 17) }
{}

/// To which domain a signal belongs, and the limits on both sides.
pub fn small_limits()
    ensures owners { owned_places ((emits 5 1 ∷ []) ∷ (emits 6 0 ∷ []) ∷ []) 0 0 (1 ∷ 2 ∷ 3 ∷ []) ≡
        2 ∷ 3 ∷ [] }
    ensures others { owned_places ((emits 5 1 ∷ []) ∷ (emits 6 0 ∷ []) ∷ []) 1 0 (1 ∷ 2 ∷ 3 ∷
        []) ≡ 1 ∷ [] }
    ensures signals { limit_failures (replicate 1023 1) (unknown 5 (role.Declare sort.Local) ∷
        []) ≡ [] }
    ensures local_signal { limit_failures (replicate 1024 1) (unknown 5 (role.Declare sort.Local) ∷
        []) ≡ failure_at fault.TooMany 5 ∷ [] }
    ensures interface_first { limit_failures (replicate 1025 1)
        (unknown 5 (role.Declare sort.Local) ∷ []) ≡ failure_at fault.TooMany 1 ∷ [] }
    ensures variables { limit_failures [] (replicate 1024 (unknown 5 (role.Declare sort.Variable)))
        ≡ [] }
    ensures variable { limit_failures [] (replicate 1025 (unknown 5 (role.Declare sort.Variable))) ≡
        failure_at fault.TooMany 5 ∷ [] }
    ensures channels { too_many most_channels (replicate 64 1) ≡ [] }
    ensures channel { too_many most_channels (replicate 64 1 ++ 2 ∷ []) ≡
        failure_at fault.TooMany 2 ∷ [] }
    ensures ends_before_limit { least_of None (failure_at fault.TooMany 2 ∷
        failure_at fault.ChannelEnds 2 ∷ []) ≡ Some (failure_at fault.ChannelEnds 2) }
{}

/// How emissions are combined where that is written and where it isn't, and the entries of small interfaces.
pub fn small_tables()
    ensures pure { combine_of None ≡ combine.Max }
    ensures boolean { combine_of (Some (record { kind = kind.Boolean; combine = None })) ≡
        combine.Or }
    ensures number { combine_of (Some (record { kind = kind.Byte; combine = None })) ≡ combine.Max }
    ensures written { combine_of (Some (record {
      kind = kind.Int;
      combine = Some (record { at = 9; operator = operator.Add });
    })) ≡ combine.Add }
    ensures signals { port_signals ((emits 5 1 ∷ []) ∷ (emits 6 2 ∷ []) ∷
        []) 0 (port_at Input (codes "A") 1 ∷ channel_at (codes "C") 2 ∷
        port_at Output (codes "B") 3 ∷ port_at Output (codes "D") 4 ∷ []) ≡
        pure_signal (codes "A") 0 sort_is.Input ∷ pure_signal (codes "B") 0 sort_is.Output ∷
        pure_signal (codes "D") 1 sort_is.Output ∷ [] }
    ensures channels { port_channels ((receives 5 0 ∷ sends 6 1 ∷ []) ∷ (looks_at 7 1 ∷ []) ∷
        (sends 8 0 ∷ []) ∷ []) 0 (channel_at (codes "C") 1 ∷ port_at Output (codes "B") 2 ∷
        channel_at (codes "D") 3 ∷ []) ≡
        int_channel (codes "C") 2 0 ∷ int_channel (codes "D") 0 1 ∷ [] }
{}
